// An index in a vector by rising key.
ghost use Rattle.std.specs.Prelude.{◌≡◌, ◌-◌, IsTrue, MatchResult};
ghost use Rattle.std.specs.FinMap as finite;
ghost use Rattle.mont_base.specs.State.{key_cmp};
ghost use Rattle.index_kit.specs.SortedIndex.{IsAt, IsGap};

use crate::index::Index;
use mont_base::Text;
use std::alloc::{AllocError, Global};
use std::marker::Model;
use std::mem;

/// An index that keeps its entries sorted, and finds a key by binary search. To put a new key or to
/// take one out moves the entries after it.
#[derive(Debug, Drop)]
pub struct SortedIndex {
    entries: Vec<(Text, u64)>,
}

impl Model for SortedIndex {
    ghost use Rattle.std.specs.Prelude.{◌-◌, IsTrue, vec_len};
    ghost use Rattle.std.specs.Vec.{vec_capacity};
    ghost use Rattle.std.specs.FinMap as finite;
    ghost use Rattle.mont_base.specs.State.{key_cmp};
    ghost use Rattle.index_kit.specs.Index.{IndexView, index_view_code};

    ghost Value = { IndexView };

    ghost coded = { index_view_code };

    ghost view = { λ i. record {
      places = finite.from_sorted i.entries.items;
      spare = vec_capacity i.entries - vec_len i.entries;
    } };

    ghost invariant = { λ i. IsTrue (finite.is_sorted key_cmp i.entries.items) };
}

impl SortedIndex {
    /// No keys. It allocates nothing.
    pub fn new(alloc: Global) -> Self
        ensures { result ≡ record { places = finite.empty; spare = 0 } }
    {
        SortedIndex {
            entries: Vec::new(alloc),
        }
    }
}

impl Index for SortedIndex {
    ghost places = { λ i. i.places };

    ghost spare = { λ i. i.spare };

    fn len(&self) -> u64 {
        self.entries.len() as u64
    }

    fn find(&self, key: Text) -> Option<u64> {
        match search(&self.entries, key) {
            Ok(at) => Some(self.entries[at].1),
            Err(_) => None,
        }
    }

    fn reserve(&mut self) -> Result<(), AllocError> {
        self.entries.reserve(1)
    }

    fn put(&mut self, key: Text, place: u64) -> Option<u64> {
        match search(&self.entries, key) {
            Ok(at) => Some(mem::replace(&mut self.entries[at].1, place)),
            Err(at) => match self.entries.insert(at, (key, place)) {
                Ok(()) => None,
                Err(_) => unreachable!(),
            },
        }
    }

    fn remove(&mut self, key: Text) -> Option<u64> {
        match search(&self.entries, key) {
            Ok(at) => Some(self.entries.remove(at).1),
            Err(_) => None,
        }
    }
}

// The place of the entry with this key, or the one where it would go.
fn search(entries: &[(Text, u64)], key: Text) -> Result<usize, usize>
    requires { IsTrue (finite.is_sorted key_cmp entries.now) }
    ensures { MatchResult result (IsAt entries.now key) (IsGap entries.now key) }
{
    entries.binary_search_by_key(&key, |(held, _)| *held)
}
