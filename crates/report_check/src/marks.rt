// Marks on the entries that were named.
ghost use Rattle.std.specs.Prelude.{◌≡◌, ◌↔◌, ℕ, ◌<◌, IfOk, IsTrue, Some, length, true};
ghost use Rattle.report_check.specs.Lowest.{IsFirst, IsFirstPair};
ghost use Rattle.report_check.specs.Marks.{AreMarks, IsMarkedThere, MarksOne, mark_at};

use job_text::Report;
use mont_base::{Sequence, Unit};
use std::alloc::{AllocError, Global};

/// Of each unit, for each entry, whether it was named.
pub type Marks = Sequence<Sequence<bool>>;

/// No entry was named yet.
pub fn no_marks(alloc: Global, report: &Report) -> Result<Marks, AllocError>
    ensures { IfOk result (AreMarks report.now.histories (λ unit place. 0)) }
{
    let mut marks = Sequence::new(alloc);
    let rows = report.histories.as_slice();
    for history in rows {
        let row = vec![in alloc; false; history.len() as usize]?;
        marks.push(Sequence::from_vec(row))?;
    }
    Ok(marks)
}

/// Whether an entry that is there was named.
pub fn is_marked(marks: &Marks, unit: Unit, place: u64) -> bool
    ensures { IsTrue result ↔ (mark_at marks.now unit place ≡ Some true) }
{
    match marks.get(unit) {
        Some(row) => row.get(place) == Some(&true),
        None => false,
    }
}

/// Marks an entry that is there.
pub fn mark(marks: &mut Marks, unit: Unit, place: u64)
    ensures { MarksOne unit place marks.old marks.new }
{
    let Some(row) = marks.get(unit) else {
        return;
    };
    if place < row.len() {
        marks.item_mut(unit).set(place, true);
    }
}

/// The first entry that has no mark.
pub fn first_unmarked(marks: &Marks) -> Option<(Unit, u64)>
    ensures { IsFirstPair (IsMarkedThere marks.now) result }
{
    for unit in 0..marks.len() {
        if let Some(place) = first_unmarked_in(marks, unit) {
            return Some((unit, place));
        }
    }
    None
}

fn first_unmarked_in(marks: &Marks, unit: Unit) -> Option<u64>
    ensures { IsFirst (IsMarkedThere marks.now unit) result }
{
    let Some(row) = marks.get(unit) else {
        return None;
    };
    for place in 0..row.len() {
        if !is_marked(marks, unit, place) {
            return Some(place);
        }
    }
    None
}
