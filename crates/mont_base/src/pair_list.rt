// Pairs of a key and a value, kept in place.
ghost use Rattle.std.specs.Prelude.{◌≡◌, ◌<◌, ◌≤◌, [], ◌∷◌, ◌++◌, length, slice_get, Some};

use crate::constants::MOST_PAIRS;
use crate::text::Text;
use std::marker::Model;

/// At most 16 pairs of a key and a value, in place. They are copied without memory.
///
/// Contracts see them as a list.
#[derive(Clone, Copy, Debug, PartialEq, Eq)]
pub struct PairList {
    // after the last pair stand empty texts
    pairs: [(Text, Text); MOST_PAIRS],
    len: usize,
}

impl Model for PairList {
    ghost use Rattle.std.specs.Prelude.{List, ℕ, length, take};

    ghost Value = { List (List ℕ × List ℕ) };

    ghost use Rattle.mont_base.specs.PairLists.{padded_pairs, PairsStand, inverse_of_view};

    ghost view = { λ p. take p.len p.pairs };

    ghost invariant = { λ p. PairsStand p.len p.pairs };

    ghost inverse = { λ ps. record { pairs = padded_pairs ps; len = length ps } };

    ghost inverse_ok = { λ p h. inverse_of_view p h };
}

impl PairList {
    /// No pairs.
    pub fn empty() -> PairList
        ensures { result ≡ [] }
    {
        let nothing = Text::empty();
        PairList {
            pairs: [(nothing, nothing); MOST_PAIRS],
            len: 0,
        }
    }

    /// How many pairs there are.
    pub fn len(&self) -> u64
        ensures value { result ≡ length self.now }
        ensures few { result ≤ MOST_PAIRS }
    {
        self.len as u64
    }

    /// The pair at a place, counted from 0.
    pub fn pair(&self, at: u64) -> (Text, Text)
        requires { at < length self.now }
        ensures { slice_get self.now at ≡ Some result }
    {
        self.as_slice()[at as usize]
    }

    /// The pairs in their order.
    pub fn as_slice(&self) -> &[(Text, Text)]
        ensures { result.now ≡ self.now }
    {
        &self.pairs[..self.len]
    }

    /// Adds a pair after the last.
    pub fn push(&mut self, key: Text, value: Text)
        requires { length self.old < MOST_PAIRS }
        ensures { self.new ≡ self.old ++ (key, value) ∷ [] }
    {
        self.pairs[self.len] = (key, value);
        self.len += 1;
    }
}
