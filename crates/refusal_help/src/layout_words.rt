// The kinds and the mask of a header, and why a word spells none.
ghost use Rattle.std.specs.Prelude.{◌≡◌, MatchResult};
ghost use Rattle.refusal_help.specs.LayoutWords.{AreKinds, IsKindsFault, IsMask, IsMaskFault};

use crate::cause::{KindsFault, MaskFault};
use crate::limits::MASK_DIGITS;
use crate::text_word::digit;
use mont_base::{MOST_UNITS, UnitKind};

/// Whether a word spells the kinds of 1 to 16 units.
pub fn check_kinds(word: &[u8]) -> Result<(), KindsFault>
    ensures { MatchResult result (λ _. AreKinds word.now)
        (λ fault. IsKindsFault word.now fault) }
{
    if word.len() < 1 || word.len() > MOST_UNITS {
        let kinds = word.len() as u64;
        return Err(KindsFault::Count { kinds });
    }
    for (at, letter) in word.iter().enumerate() {
        if UnitKind::of_letter(*letter).is_none() {
            let at = at as u64;
            return Err(KindsFault::Letter { at });
        }
    }
    Ok(())
}

/// Whether a word is sixteen digits in base 16.
pub fn check_mask(word: &[u8]) -> Result<(), MaskFault>
    ensures { MatchResult result (λ _. IsMask word.now) (λ fault. IsMaskFault word.now fault) }
{
    if word.len() != MASK_DIGITS {
        let digits = word.len() as u64;
        return Err(MaskFault::Count { digits });
    }
    for (at, byte) in word.iter().enumerate() {
        if digit(*byte).is_none() {
            let at = at as u64;
            return Err(MaskFault::Digit { at });
        }
    }
    Ok(())
}
