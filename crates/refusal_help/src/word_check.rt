// Whether a word is what its place wants.
ghost use Rattle.std.specs.Prelude.{◌≡◌, ◌≢◌, ◌↔◌, false, IsTrue, MatchResult};
ghost use Rattle.refusal_help.specs.declared.cause.Range.TheVariants as ranges;
ghost use Rattle.refusal_help.specs.declared.cause.WordFault.TheVariants as faults;
ghost use Rattle.refusal_help.specs.declared.wanted.Wanted.TheVariants as wants;
ghost use Rattle.refusal_help.specs.Table.{fixed_word};
ghost use Rattle.refusal_help.specs.Words.{IsWord, IsFault, IsIn, needs_map, range_of};

use crate::cause::{Range, WordFault};
use crate::event::Event;
use crate::form::Form;
use crate::given::Given;
use crate::layout_words::{check_kinds, check_mask};
use crate::limits::{MOST_CALLERS, MOST_STEPS, MOST_WORKERS};
use crate::number_word::number_of;
use crate::operation::Operation;
use crate::part::Part;
use crate::reply::Reply;
use crate::text_word::check_text;
use crate::wanted::{Figure, Fixed, Wanted};
use mont_base::{LEAST_SLOTS, MOST_PAIRS, MOST_SLOTS, UnitKind};

/// Whether a word is what its place wants, after the lines that gave this.
pub fn check_word(word: &[u8], wanted: Wanted, given: &Given) -> Result<(), WordFault>
    ensures { MatchResult result (λ _. IsWord given.now wanted word.now)
        (λ fault. IsFault given.now wanted word.now fault) }
{
    match wanted {
        Wanted::Word(fixed) => check_fixed(word, fixed),
        Wanted::Number(figure) => check_number(word, figure, given),
        Wanted::UnitOf(kind) => check_unit(word, kind, given),
        Wanted::Key | Wanted::Value => check_text(word).map_err(WordFault::Text),
        Wanted::Kinds => check_kinds(word).map_err(WordFault::Kinds),
        Wanted::Mask => check_mask(word).map_err(WordFault::Mask),
        Wanted::Deed => check_deed(word, given),
        Wanted::Operation => check_operation(word, given),
        Wanted::Event => known(Event::of_word(word).is_some()),
        Wanted::Part => known(Part::of_word(word).is_some()),
        Wanted::Reply => known(Reply::of_word(word).is_some()),
        Wanted::Form => known(Form::of_word(word).is_some()),
        Wanted::File => Ok(()),
    }
}

// Whether a word is the one that must stand there.
fn check_fixed(word: &[u8], fixed: Fixed) -> Result<(), WordFault>
    ensures { MatchResult result (λ _. word.now ≡ fixed_word fixed)
        (λ fault. (fault ≡ faults.Other) × (word.now ≢ fixed_word fixed)) }
{
    if word == fixed.word() {
        Ok(())
    } else {
        Err(WordFault::Other)
    }
}

// Whether a word spells a number in its range.
fn check_number(word: &[u8], figure: Figure, given: &Given) -> Result<(), WordFault>
    ensures { MatchResult result (λ _. IsWord given.now (wants.Number figure) word.now)
        (λ fault. IsFault given.now (wants.Number figure) word.now fault) }
{
    let number = number_of(word).map_err(WordFault::Number)?;
    let range = range_of(figure, given);
    if is_in(range, number) {
        Ok(())
    } else {
        Err(WordFault::Outside { number, range })
    }
}

// The numbers that a place takes.
fn range_of(figure: Figure, given: &Given) -> Range
    ensures { result ≡ range_of given.now figure }
{
    match figure {
        Figure::Slots => within(LEAST_SLOTS, MOST_SLOTS),
        Figure::Callers => within(1, MOST_CALLERS),
        Figure::Attempts | Figure::Steps => within(0, MOST_STEPS),
        Figure::Gate => within(given.gate.unwrap_or(0), given.callers),
        Figure::Caller => below(given.callers),
        Figure::Unit => below(given.units()),
        Figure::Slot => below(given.slots()),
        Figure::Most => within(1, MOST_PAIRS as u64),
        Figure::Pairs => within(0, MOST_PAIRS as u64),
        Figure::Workers => within(1, MOST_WORKERS),
        Figure::Any => Range::Any,
    }
}

fn below(end: u64) -> Range
    ensures { result ≡ ranges.Below end }
{
    Range::Below { end }
}

fn within(least: u64, most: u64) -> Range
    ensures { result ≡ ranges.Within least most }
{
    Range::Within { least, most }
}

// Whether a number of 64 bits is in a range.
fn is_in(range: Range, number: u64) -> bool
    ensures { IsTrue result ↔ IsIn range number }
{
    match range {
        Range::Any => true,
        Range::Below { end } => number < end,
        Range::Within { least, most } => least <= number && number <= most,
    }
}

// Whether a word spells the number of a unit of this kind.
fn check_unit(word: &[u8], wanted: UnitKind, given: &Given) -> Result<(), WordFault>
    ensures { MatchResult result (λ _. IsWord given.now (wants.UnitOf wanted) word.now)
        (λ fault. IsFault given.now (wants.UnitOf wanted) word.now fault) }
{
    let number = number_of(word).map_err(WordFault::Number)?;
    match given.kind(number) {
        Some(kind) if kind == wanted => Ok(()),
        Some(kind) => Err(WordFault::OtherKind { number, kind }),
        None => Err(WordFault::NoUnit {
            number,
            units: given.units(),
        }),
    }
}

// Whether a word names what a caller may ask of these units.
fn check_deed(word: &[u8], given: &Given) -> Result<(), WordFault>
    ensures { MatchResult result (λ _. IsWord given.now wants.Deed word.now)
        (λ fault. IsFault given.now wants.Deed word.now fault) }
{
    match Operation::of_word(word) {
        None => Err(WordFault::Unknown),
        Some(operation) if needs_map(operation) && given.maps() == 0 => Err(WordFault::NoMap),
        Some(_) => Ok(()),
    }
}

// Whether a word names an operation on these units.
fn check_operation(word: &[u8], given: &Given) -> Result<(), WordFault>
    ensures { MatchResult result (λ _. IsWord given.now wants.Operation word.now)
        (λ fault. IsFault given.now wants.Operation word.now fault) }
{
    match Operation::of_word(word) {
        None | Some(Operation::Tick | Operation::Sync) => Err(WordFault::Unknown),
        Some(operation) if needs_map(operation) && given.maps() == 0 => Err(WordFault::NoMap),
        Some(_) => Ok(()),
    }
}

// Whether an operation is one of the map units.
fn needs_map(operation: Operation) -> bool
    ensures { result ≡ needs_map operation }
{
    matches!(operation, Operation::Put | Operation::Get | Operation::Del)
}

// The word is known, or it isn't.
fn known(is_known: bool) -> Result<(), WordFault>
    ensures { MatchResult result (λ _. IsTrue is_known)
        (λ fault. (is_known ≡ false) × (fault ≡ faults.Unknown)) }
{
    if is_known {
        Ok(())
    } else {
        Err(WordFault::Unknown)
    }
}
