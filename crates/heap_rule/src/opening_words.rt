// The words with which a store opens.
ghost use Rattle.std.specs.Prelude.{◌≡◌};
ghost use Rattle.core_steps.specs.Fresh.{fresh_words};

use mont_base::{Layout, Sequence};
use std::marker::Model;

/// The words with which a store opens.
///
/// Contracts see them as their list. Those of a store that was never used take no memory: its
/// layout tells them.
#[derive(Drop)]
pub struct OpeningWords {
    layout: Layout,
    given: Option<Sequence<u64>>,
}

impl Model for OpeningWords {
    ghost use Rattle.std.specs.Prelude.{ℕ, List};
    ghost use Rattle.heap_rule.specs.OpeningWords.{words_or_fresh};

    ghost Value = { List ℕ };

    ghost view = { λ w. words_or_fresh w.layout w.given };
}

impl OpeningWords {
    /// Those of a store of this layout that was never used.
    pub fn fresh(layout: Layout) -> OpeningWords
        ensures { result ≡ fresh_words layout }
    {
        OpeningWords {
            layout,
            given: None,
        }
    }

    /// These words, of a store of this layout.
    pub fn given(layout: Layout, words: Sequence<u64>) -> OpeningWords
        ensures { result ≡ words }
    {
        OpeningWords {
            layout,
            given: Some(words),
        }
    }
}
