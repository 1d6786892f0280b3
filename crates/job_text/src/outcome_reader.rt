// Outcomes from the lines that spell them.
ghost use Rattle.std.specs.Prelude.{◌≡◌, ◌≢◌, ◌↔◌, ◌≤◌, ◌+◌, ◌∷◌, [], ℕ, List, map, true, false, IsTrue, MatchOption};
ghost use Rattle.mont_base.specs.declared.refusal.Which.{Which};
ghost use Rattle.job_text.specs.declared.outcome.Outcome.{Outcome};
ghost use Rattle.job_text.specs.ReportText.{outcome_words, count_word};
ghost use Rattle.job_text.specs.ReportRanges.{AreNumbers, InRange, IsOutcomeAt, is_cut};
ghost use Rattle.job_text.specs.TextParts.{rows_from};
ghost use Rattle.job_text.specs.ReportRows.{Tells, line_of_row, AllOf, is_of_unit, is_of_clock, MayStand};

use crate::outcome::Outcome;
use crate::report_refusal::ReportRefusal;
use crate::unread::Unread;
use crate::words_behind::{behind, named};
use mont_base::{Sequence, Which};
use std::alloc::Global;

/// So many outcomes of one caller.
pub fn next_outcomes(
    alloc: Global,
    lines: &mut Unread<'_>,
    units: u64,
    callers: u64,
    count: u64,
) -> Result<Sequence<Outcome>, ReportRefusal>
    ensures { Tells (AllOf (IsOutcomeAt units callers count) count)
        (rows_from (λ place. line_of_row outcome_words) 0) lines.old lines.new result }
{
    let mut outcomes = Sequence::new(alloc);
    for place in 0..count {
        let outcome = next_outcome(lines, units, callers, count, place)?;
        outcomes.push(outcome)?;
    }
    Ok(outcomes)
}

// The outcome at this place of so many of one caller, of which only the last can be a cut.
fn next_outcome(
    lines: &mut Unread<'_>,
    units: u64,
    callers: u64,
    count: u64,
    place: u64,
) -> Result<Outcome, ReportRefusal>
    requires { place + 1 ≤ count }
    ensures { Tells (IsOutcomeAt units callers count place) (line_of_row outcome_words)
        lines.old lines.new result }
{
    let words = lines.words()?;
    match outcome_at(words.as_slice(), units, callers, count, place) {
        Some(outcome) => Ok(outcome),
        None => Err(lines.refused()),
    }
}

// The outcome that words spell, if it may stand at this place.
fn outcome_at(words: &[&[u8]], units: u64, callers: u64, count: u64, place: u64) -> Option<Outcome>
    requires { place + 1 ≤ count }
    ensures { MatchOption result
        ((o : Outcome) → IsOutcomeAt units callers count place o
        → map (λ word. word.now) words.now ≢ outcome_words o)
        (λ o. IsOutcomeAt units callers count place o
        × (map (λ word. word.now) words.now ≡ outcome_words o)) }
{
    let outcome = outcome_of(words)?;
    if may_stand(&outcome, units, callers, count, place) {
        Some(outcome)
    } else {
        None
    }
}

// Whether the unit and the caller that an outcome names are there, and it stands last if it is a
// cut.
fn may_stand(outcome: &Outcome, units: u64, callers: u64, count: u64, place: u64) -> bool
    requires { place + 1 ≤ count }
    ensures { IsTrue result ↔ MayStand units callers count place outcome.now }
{
    if is_cut(outcome) && place + 1 != count {
        false
    } else {
        is_in_range(outcome, units, callers)
    }
}

// Whether the unit and the caller that an outcome names are there.
fn is_in_range(outcome: &Outcome, units: u64, callers: u64) -> bool
    ensures { IsTrue result ↔ InRange units callers outcome.now }
{
    match outcome {
        Outcome::At { unit, .. } => *unit < units,
        Outcome::Stuck { unit, .. } => *unit < units,
        Outcome::Halted { unit, by } => *unit < units && *by < callers,
        Outcome::CutIn { unit } => *unit < units,
        _ => true,
    }
}

fn is_cut(outcome: &Outcome) -> bool
    ensures { result ≡ is_cut outcome.now }
{
    matches!(outcome, Outcome::CutIn { .. } | Outcome::Cut)
}

// The outcome that words spell.
fn outcome_of(words: &[&[u8]]) -> Option<Outcome>
    ensures { MatchOption result
        ((o : Outcome) → AreNumbers o → map (λ word. word.now) words.now ≢ outcome_words o)
        (λ o. AreNumbers o × (map (λ word. word.now) words.now ≡ outcome_words o)) }
{
    if let Some(outcome) = of_unit(words) {
        return Some(outcome);
    }
    if let Some(outcome) = of_clock(words) {
        return Some(outcome);
    }
    of_neither(words)
}

// An outcome that names a unit.
fn of_unit(words: &[&[u8]]) -> Option<Outcome>
    ensures { MatchOption result
        ((o : Outcome) → AreNumbers o → is_of_unit o ≡ true
        → map (λ word. word.now) words.now ≢ outcome_words o)
        (λ o. AreNumbers o × (map (λ word. word.now) words.now ≡ outcome_words o)) }
{
    if let Some(numbers) = named::<2>(words, b"at") {
        let [unit, place] = numbers;
        return Some(Outcome::At { unit, place });
    }
    if let Some(numbers) = named::<2>(words, b"stuck") {
        let [unit, epoch] = numbers;
        return Some(Outcome::Stuck { unit, epoch });
    }
    if let Some(numbers) = named::<2>(words, b"halted") {
        let [unit, by] = numbers;
        return Some(Outcome::Halted { unit, by });
    }
    let [unit] = named::<1>(words, b"cut")?;
    Some(Outcome::CutIn { unit })
}

// An outcome that tells a clock and no unit.
fn of_clock(words: &[&[u8]]) -> Option<Outcome>
    ensures { MatchOption result
        ((o : Outcome) → AreNumbers o → is_of_clock o ≡ true
        → map (λ word. word.now) words.now ≢ outcome_words o)
        (λ o. AreNumbers o × (map (λ word. word.now) words.now ≡ outcome_words o)) }
{
    if let Some(numbers) = named::<1>(words, b"synced") {
        let [epoch] = numbers;
        return Some(Outcome::Synced { epoch });
    }
    if let Some(numbers) = named::<1>(words, b"ticked") {
        let [epoch] = numbers;
        return Some(Outcome::Ticked { epoch });
    }
    let [need, free, clock] = named::<3>(words, b"full")?;
    Some(Outcome::Full { need, free, clock })
}

// An outcome without a unit and a clock.
fn of_neither(words: &[&[u8]]) -> Option<Outcome>
    ensures { MatchOption result
        ((o : Outcome) → is_of_unit o ≡ false → is_of_clock o ≡ false
        → map (λ word. word.now) words.now ≢ outcome_words o)
        (λ o. AreNumbers o × (map (λ word. word.now) words.now ≡ outcome_words o)) }
{
    if named::<0>(words, b"clockend").is_some() {
        return Some(Outcome::ClockEnd);
    }
    if named::<0>(words, b"cut").is_some() {
        return Some(Outcome::Cut);
    }
    match behind(words, b"countend")? {
        [word] => {
            let which = which_of(word)?;
            Some(Outcome::CountEnd { which })
        }
        _ => None,
    }
}

// The number that a word names.
fn which_of(word: &[u8]) -> Option<Which>
    ensures { MatchOption result ((w : Which) → word.now ≢ count_word w)
        (λ w. word.now ≡ count_word w) }
{
    if word == b"call".as_slice() {
        Some(Which::Call)
    } else if word == b"place".as_slice() {
        Some(Which::Place)
    } else if word == b"identity".as_slice() {
        Some(Which::Identity)
    } else if word == b"version".as_slice() {
        Some(Which::Version)
    } else if word == b"serial".as_slice() {
        Some(Which::Serial)
    } else {
        None
    }
}
