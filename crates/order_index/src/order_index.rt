// An index in a counted tree by rising key.
ghost use Rattle.std.specs.Prelude.{◌≡◌, IsTrue, MatchResult, slice_get};
ghost use Rattle.std.specs.FinMap as finite;
ghost use Rattle.mont_base.specs.State.{key_cmp, last_of};
ghost use Rattle.counted_tree.specs.Order.{count_below};
ghost use Rattle.order_index.specs.OrderIndex.{IsHeldAt, IsMissingAt};
ghost use Rattle.order_index.specs.KeyRanges.{up_to, IsStretch};

use crate::stretch::Stretch;
use counted_tree::Tree;
use index_kit::Index;
use mont_base::Text;
use std::alloc::{AllocError, Global};
use std::marker::Model;
use std::mem;

// So many entries no memory holds.
const MOST_ENTRIES: u64 = 1 << 60;

/// An index that keeps its entries in a balanced tree by rising key. Each call takes a few steps
/// for each time that the number of keys doubles.
///
/// Memory is taken by `reserve` alone, for one key at a time.
#[derive(Drop)]
pub struct OrderIndex {
    entries: Tree<(Text, u64)>,
    // A node for a key that is to come, or none.
    waiting: Tree<(Text, u64)>,
    alloc: Global,
}

impl Model for OrderIndex {
    ghost use Rattle.std.specs.Prelude.{length};
    ghost use Rattle.std.specs.FinMap as finite;
    ghost use Rattle.index_kit.specs.Index.{IndexView, index_view_code};
    ghost use Rattle.order_index.specs.OrderIndex.{IsKeptInOrder};

    ghost Value = { IndexView };

    ghost coded = { index_view_code };

    ghost view = { λ i. record {
      places = finite.from_sorted i.entries;
      spare = length i.waiting;
    } };

    ghost invariant = { λ i. IsKeptInOrder i.entries i.waiting };
}

impl OrderIndex {
    /// No keys. It allocates nothing.
    pub fn new(alloc: Global) -> Self
        ensures { result ≡ record { places = finite.empty; spare = 0 } }
    {
        OrderIndex {
            entries: Tree::new(),
            waiting: Tree::new(),
            alloc,
        }
    }

    /// How many keys are below this one.
    pub fn rank(&self, key: Text) -> u64
        ensures { result ≡ count_below key_cmp key (finite.entries self.now.places) }
    {
        self.entries.count_below(&key)
    }

    /// The entry of the greatest key that is at most this one.
    pub fn floor(&self, key: Text) -> Option<(Text, u64)>
        ensures { result ≡ last_of (up_to key (finite.entries self.now.places)) }
    {
        let behind = self.entries.count_up_to(&key);
        if behind == 0 {
            return None;
        }
        self.entries.get(behind - 1).copied()
    }

    /// Where the entries from one key to another stand, with both.
    pub fn stretch(&self, from: Text, to: Text) -> Stretch
        ensures { IsStretch from to (finite.entries self.now.places) result }
    {
        let first = self.entries.count_below(&from);
        let behind = self.entries.count_up_to(&to);
        Stretch {
            first,
            behind: behind.max(first),
        }
    }

    /// The entry at a place.
    pub fn entry_at(&self, place: u64) -> Option<(Text, u64)>
        ensures { result ≡ slice_get (finite.entries self.now.places) place }
    {
        self.entries.get(place).copied()
    }
}

impl Index for OrderIndex {
    ghost places = { λ i. i.places };

    ghost spare = { λ i. i.spare };

    fn len(&self) -> u64 {
        self.entries.len()
    }

    fn find(&self, key: Text) -> Option<u64> {
        match search(&self.entries, key) {
            Ok(at) => Some(self.entries.get(at)?.1),
            Err(_) => None,
        }
    }

    fn reserve(&mut self) -> Result<(), AllocError> {
        if self.waiting.len() == 1 {
            return Ok(());
        }
        if self.entries.len() >= MOST_ENTRIES {
            return Err(AllocError);
        }
        self.waiting = Tree::single(self.alloc, (Text::of_number(0), 0))?;
        Ok(())
    }

    fn put(&mut self, key: Text, place: u64) -> Option<u64> {
        match search(&self.entries, key) {
            Ok(at) => Some(self.entries.replace(at, (key, place)).1),
            Err(at) => {
                let mut node = mem::replace(&mut self.waiting, Tree::new());
                node.replace(0, (key, place));
                self.entries.insert(at, node);
                None
            }
        }
    }

    fn remove(&mut self, key: Text) -> Option<u64> {
        match search(&self.entries, key) {
            Ok(at) => Some(self.entries.remove(at).1),
            Err(_) => None,
        }
    }
}

// The place of the entry with this key, or the one where it would go.
fn search(entries: &Tree<(Text, u64)>, key: Text) -> Result<u64, u64>
    requires { IsTrue (finite.is_sorted key_cmp entries.now) }
    ensures { MatchResult result (IsHeldAt entries.now key) (IsMissingAt entries.now key) }
{
    let at = entries.count_below(&key);
    match entries.get(at) {
        Some(entry) if entry.0 == key => Ok(at),
        _ => Err(at),
    }
}
