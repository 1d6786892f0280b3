// Words after a word.
ghost use Rattle.std.specs.Prelude.{◌≡◌, ◌≢◌, ◌∷◌, ℕ, List, length, map, All, MatchOption, decimal};
ghost use Rattle.job_text.specs.Operations.{IsNumber};

use crate::number_words::numbers;

/// The words after the first, where that is this one.
pub fn behind<'a, 'b>(words: &'a [&'b [u8]], name: &[u8]) -> Option<&'a [&'b [u8]]>
    ensures { MatchOption result
        ((rest : List (List ℕ)) → map (λ word. word.now) words.now ≢ name.now ∷ rest)
        (λ rest. map (λ word. word.now) words.now
        ≡ name.now ∷ map (λ word. word.now) rest.now) }
{
    let (first, rest) = words.split_first()?;
    if *first == name { Some(rest) } else { None }
}

/// The numbers after the first word, where that is this one and so many words follow.
pub fn named<const N: usize>(words: &[&[u8]], name: &[u8]) -> Option<[u64; N]>
    ensures { MatchOption result
        ((ns : List ℕ) → length ns ≡ N → All IsNumber ns
        → map (λ word. word.now) words.now ≢ name.now ∷ map decimal ns)
        (λ ns. All IsNumber ns
        × (map (λ word. word.now) words.now ≡ name.now ∷ map decimal ns)) }
{
    numbers::<N>(behind(words, name)?)
}
