// The records of a region, as its readers tell them.
ghost use Rattle.std.specs.Prelude.{◌≡◌, ◌++◌, IfOk, OnOk, option_to_list};
ghost use Rattle.std.specs.Option.{option_copied};
ghost use Rattle.core_answer.specs.Newest.{HaveSameNewest};
ghost use Rattle.slots.specs.Books.{Agrees};

use mont_base::{Held, Layout};
use slots::Region;
use std::alloc::{AllocError, Global};

/// The records of a region of a store with this layout, by rising slot.
pub fn records_of(alloc: Global, layout: Layout, region: &Region) -> Result<Vec<Held>, AllocError>
    requires agrees { Agrees region.now }
    requires layout { region.now.books.layout ≡ layout }
    ensures { IfOk result (λ v. HaveSameNewest v.items region.now.seat.known.part.records) }
{
    let first = region.unit() * layout.slots();
    let mut records = Vec::new(alloc);
    for slot in first..first + layout.slots() {
        push_found(&mut records, region.find_record(slot))?;
    }
    Ok(records)
}

fn push_found(records: &mut Vec<Held>, found: Option<&Held>) -> Result<(), AllocError>
    ensures { OnOk result (records.new.items
        ≡ records.old.items ++ option_to_list (option_copied found.entry)) }
{
    if let Some(held) = found {
        records.push(*held)?;
    }
    Ok(())
}
