// With what a region begins: with nothing, or with what recovery found.
ghost use Rattle.std.specs.Prelude.{◌≡◌, ◌<◌, [], IfOk};
ghost use Rattle.mont_base.specs.Layout.{units_of};
ghost use Rattle.slots.specs.RegionBeginning.{BeginsWith, AreFound, fresh_books, first_books};
ghost use Rattle.slots.specs.Books.{Agrees};

use crate::books::Books;
use crate::region::Region;
use heap::UnitSeat;
use mont_base::{Held, Layout, Slot, Unit};
use std::alloc::{AllocError, Global};

impl Region {
    /// The region of a unit of which nothing is stored. All its slots are free.
    pub fn fresh(
        alloc: Global,
        layout: Layout,
        unit: Unit,
        seat: UnitSeat,
    ) -> Result<Region, AllocError>
        requires inside { unit < units_of layout }
        requires of_unit { seat.known.unit ≡ unit }
        requires begins { BeginsWith seat.known.part [] [] }
        ensures agrees { IfOk result (λ r. Agrees r) }
        ensures seat { IfOk result (λ r. r.seat ≡ seat) }
        ensures books { IfOk result (λ r. r.books ≡ fresh_books layout unit) }
    {
        let books = Books::fresh(alloc, layout, unit)?;
        Ok(Region { seat, books })
    }

    /// The region of a unit of which recovery found these records within the cut, and these slots
    /// left open beyond it, each by rising slot.
    pub fn recovered(
        alloc: Global,
        layout: Layout,
        unit: Unit,
        seat: UnitSeat,
        records: &[Held],
        lost: &[Slot],
    ) -> Result<Region, AllocError>
        requires inside { unit < units_of layout }
        requires of_unit { seat.known.unit ≡ unit }
        requires begins { BeginsWith seat.known.part records.now lost.now }
        requires found { AreFound layout unit records.now lost.now }
        ensures agrees { IfOk result (λ r. Agrees r) }
        ensures seat { IfOk result (λ r. r.seat ≡ seat) }
        ensures books { IfOk result (λ r. r.books ≡ first_books layout unit records.now lost.now) }
    {
        let books = Books::recovered(alloc, layout, unit, records, lost)?;
        Ok(Region { seat, books })
    }
}
