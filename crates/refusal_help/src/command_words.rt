// The first thing that is wrong with the words of the command line.
ghost use Rattle.std.specs.Prelude.{◌≡◌, ℕ, map, IfOk, MatchOption};
ghost use Rattle.refusal_help.specs.Judged.{AreCommand, AreCommandWants, IsCommandCause, NamesForm, form_wants};

use crate::cause::Cause;
use crate::form::Form;
use crate::given::Given;
use crate::wanted::Wanted;
use crate::words::check_words;
use std::alloc::{AllocError, Global};

/// The first thing that is wrong with the words after the program's name; none where they are of
/// a form.
pub fn command_cause(alloc: Global, words: &[&[u8]]) -> Result<Option<Cause>, AllocError>
    ensures { IfOk result (λ cause. MatchOption cause
        (AreCommand (map (λ word. word.now) words.now))
        (λ c. IsCommandCause (map (λ word. word.now) words.now) c)) }
{
    let wants = wants_of(alloc, words)?;
    match check_words(words, wants.as_slice(), &Given::nothing()) {
        Ok(()) => Ok(None),
        Err(cause) => Ok(Some(cause)),
    }
}

// What the words are to be, by the first of them and their number.
fn wants_of(alloc: Global, words: &[&[u8]]) -> Result<Vec<Wanted>, AllocError>
    ensures { IfOk result
        (λ wants. AreCommandWants (map (λ word. word.now) words.now) wants.items) }
{
    form_wants(alloc, form_of(words), words.len())
}

// What so many words are to be, by the form that the first of them names. After `resume FILE`
// another file may stand.
fn form_wants(alloc: Global, form: Option<Form>, count: usize) -> Result<Vec<Wanted>, AllocError>
    ensures { IfOk result (λ wants. wants.items ≡ form_wants form count) }
{
    let mut wants = Vec::from_array(alloc, [Wanted::Form])?;
    match form {
        Some(Form::Resume) if count > 2 => wants.extend_from_slice(&[Wanted::File, Wanted::File])?,
        Some(form) => wants.extend_from_slice(form.args())?,
        None => {}
    }
    Ok(wants)
}

// The form that the first word names.
fn form_of(words: &[&[u8]]) -> Option<Form>
    ensures { NamesForm (map (λ word. word.now) words.now) result }
{
    match words.get(0) {
        Some(word) => Form::of_word(word),
        None => None,
    }
}
