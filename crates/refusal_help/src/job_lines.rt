// The first thing that is wrong with a line of a job.
ghost use Rattle.std.specs.Prelude.{◌≡◌, ◌↔◌, map, codes, IfOk, IsTrue, MatchOption};
ghost use Rattle.refusal_help.specs.Lines.{AreWords, IsWordCause};
ghost use Rattle.refusal_help.specs.Words.{nothing_given};
ghost use Rattle.refusal_help.specs.Judged.{AreJobWants, AreJobWords, BeginStop, IsCause, IsJobCause, IsJobLine, IsJobWordCause, IsLate, IsSound, Names, call_wants, job_header_wants};

use crate::cause::Cause;
use crate::given::Given;
use crate::line_bytes::check_bytes;
use crate::operation::Operation;
use crate::wanted::{Figure, Fixed, Wanted};
use crate::words::{check_words, words_of};
use std::alloc::{AllocError, Global};

const HEADER: [Wanted; 7] = [
    Wanted::Word(Fixed::JobTitle),
    Wanted::Word(Fixed::JobVersion),
    Wanted::Kinds,
    Wanted::Number(Figure::Slots),
    Wanted::Number(Figure::Callers),
    Wanted::Number(Figure::Attempts),
    Wanted::Mask,
];

const STOP: [Wanted; 3] = [
    Wanted::Word(Fixed::Stop),
    Wanted::Number(Figure::Gate),
    Wanted::Number(Figure::Steps),
];

/// The first thing that is wrong with the first line of a job; none where each of its words is
/// what its place wants.
pub fn header_cause(alloc: Global, line: &[u8]) -> Result<Option<Cause>, AllocError>
    ensures { IfOk result (λ cause. MatchOption cause
        (IsSound nothing_given job_header_wants line.now)
        (λ c. IsCause nothing_given job_header_wants line.now c)) }
{
    if let Err(cause) = check_bytes(line) {
        return Ok(Some(cause));
    }
    let words = words_of(alloc, line)?;
    Ok(header_words_cause(words.as_slice()))
}

// The first thing that is wrong with the words of the first line.
fn header_words_cause(words: &[&[u8]]) -> Option<Cause>
    ensures { MatchOption result
        (AreWords nothing_given job_header_wants (map (λ word. word.now) words.now))
        (λ c. IsWordCause nothing_given job_header_wants (map (λ word. word.now) words.now) c) }
{
    match check_words(words, &HEADER, &Given::nothing()) {
        Ok(()) => None,
        Err(cause) => Some(cause),
    }
}

/// The first thing that is wrong with a later line of a job, after lines that gave this; none
/// where each of its words is what its place wants, and a stop line may still come if it is one.
pub fn line_cause(alloc: Global, line: &[u8], given: &Given) -> Result<Option<Cause>, AllocError>
    ensures { IfOk result (λ cause. MatchOption cause (IsJobLine given.now line.now)
        (λ c. IsJobCause given.now line.now c)) }
{
    if let Err(cause) = check_bytes(line) {
        return Ok(Some(cause));
    }
    let words = words_of(alloc, line)?;
    words_cause(alloc, words.as_slice(), given)
}

// The first thing that is wrong with the words of a later line.
fn words_cause(alloc: Global, words: &[&[u8]], given: &Given) -> Result<Option<Cause>, AllocError>
    ensures { IfOk result (λ cause. MatchOption cause
        (AreJobWords given.now (map (λ word. word.now) words.now))
        (λ c. IsJobWordCause given.now (map (λ word. word.now) words.now) c)) }
{
    if is_late(words, given) {
        return Ok(Some(Cause::LateStop));
    }
    let wants = wants_of(alloc, words)?;
    match check_words(words, wants.as_slice(), given) {
        Ok(()) => Ok(None),
        Err(cause) => Ok(Some(cause)),
    }
}

// Whether a stop line stands after lines of callers.
fn is_late(words: &[&[u8]], given: &Given) -> bool
    ensures { IsTrue result ↔ IsLate given.now (map (λ word. word.now) words.now) }
{
    begins_stop(words) && given.gate.is_none()
}

// What the words of a line are to be, by its first two.
fn wants_of(alloc: Global, words: &[&[u8]]) -> Result<Vec<Wanted>, AllocError>
    ensures { IfOk result
        (λ wants. AreJobWants (map (λ word. word.now) words.now) wants.items) }
{
    if begins_stop(words) {
        Ok(Vec::from_array(alloc, STOP)?)
    } else {
        call_wants(alloc, operation_at(words, 1))
    }
}

// What the words of a caller's line are to be, by the operation that it names.
fn call_wants(alloc: Global, operation: Option<Operation>) -> Result<Vec<Wanted>, AllocError>
    ensures { IfOk result (λ wants. wants.items ≡ call_wants operation) }
{
    let mut wants = Vec::from_array(alloc, [Wanted::Number(Figure::Caller), Wanted::Deed])?;
    if let Some(operation) = operation {
        wants.extend_from_slice(operation.args())?;
    }
    Ok(wants)
}

// Whether the first word is `stop`.
fn begins_stop(words: &[&[u8]]) -> bool
    ensures { IsTrue result ↔ BeginStop (map (λ word. word.now) words.now) }
{
    match words.get(0) {
        Some(word) => is_stop(word),
        None => false,
    }
}

// Whether a word is `stop`.
fn is_stop(word: &[u8]) -> bool
    ensures { IsTrue result ↔ (word.now ≡ codes "stop") }
{
    word == Fixed::Stop.word()
}

/// The operation that the word at a place names.
pub fn operation_at(words: &[&[u8]], at: usize) -> Option<Operation>
    ensures { Names (map (λ word. word.now) words.now) at result }
{
    match words.get(at) {
        Some(word) => Operation::of_word(word),
        None => None,
    }
}
