// The words of a line, and the first of them that isn't what is wanted.
ghost use Rattle.std.specs.Prelude.{◌≡◌, map, IfOk, MatchResult};
ghost use Rattle.refusal_help.specs.Lines.{words_of, AreWords, IsWordCause};

use crate::cause::Cause;
use crate::given::Given;
use crate::wanted::Wanted;
use crate::word_check::check_word;
use std::alloc::{AllocError, Global};

/// The words of a line, which stand between its spaces.
pub fn words_of(alloc: Global, line: &[u8]) -> Result<Vec<&[u8]>, AllocError>
    ensures { IfOk result (λ words. map (λ word. word.now) words.items ≡ words_of line.now) }
{
    line.split(|byte| *byte == b' ').collect(alloc)
}

/// Whether words are what their places want, and so many as places.
pub fn check_words(words: &[&[u8]], wants: &[Wanted], given: &Given) -> Result<(), Cause>
    ensures { MatchResult result
        (λ _. AreWords given.now wants.now (map (λ word. word.now) words.now))
        (λ cause. IsWordCause given.now wants.now (map (λ word. word.now) words.now) cause) }
{
    for (at, wanted) in wants.iter().enumerate() {
        let wanted = *wanted;
        let Some(word) = words.get(at) else {
            return Err(Cause::Missing {
                at: at as u64,
                wanted,
            });
        };
        if let Err(fault) = check_word(word, wanted, given) {
            return Err(Cause::Word {
                at: at as u64,
                wanted,
                fault,
            });
        }
    }
    if words.len() > wants.len() {
        return Err(Cause::Extra {
            most: wants.len() as u64,
        });
    }
    Ok(())
}
