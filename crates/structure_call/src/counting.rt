// Each call counts the numbers that it gives.
ghost use Rattle.structure_call.specs.CountedNumbers.{FreshAreCounted, RecoveredAreCounted, AnswersAreCounted, RefusalsAreCounted, NumbersEnd};

/// A unit of a store that was never used has given no number.
pub fn fresh_units_are_counted()
    ensures { FreshAreCounted }
{}

/// The next numbers of a unit that was recovered are those after the records that were found.
pub fn recovered_units_are_counted()
    ensures { RecoveredAreCounted }
{}

/// A call that is answered gives one identity to each object that it inserts, one serial to each
/// item that it adds, and one version to each thing that it changes.
pub fn answers_are_counted()
    ensures { AnswersAreCounted }
{}

/// A call that is refused gives none, unless it was cut.
pub fn refusals_are_counted()
    ensures { RefusalsAreCounted }
{}

/// Where a number is at its end, what the store was opened with and the entries since then have
/// used all of them.
pub fn numbers_end()
    ensures { NumbersEnd }
{}
