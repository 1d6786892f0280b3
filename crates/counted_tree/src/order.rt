// How many entries of a tree by rising key have a key below another one, or at most that one.
ghost use Rattle.std.specs.Prelude.{◌≡◌, ◌≤◌, length, IsTrue};
ghost use Rattle.std.specs.FinMap.Entries.{is_sorted};
ghost use Rattle.counted_tree.specs.Order.{stands_before, count_to, count_below, count_up_to};

use crate::tree::{Node, Tree};
use std::cmp::Ordering;

impl<K: Ord, V> Tree<(K, V)> {
    /// How many entries have a key below this one, where the entries stand by rising key.
    pub fn count_below(&self, key: &K) -> u64
        ensures bound { result ≤ length self.now }
        ensures value { IsTrue (is_sorted K.cmp self.now)
            → result ≡ count_below K.cmp key.now self.now }
    {
        self.count_to(false, key)
    }

    /// How many entries have this key or one below it, where the entries stand by rising key.
    pub fn count_up_to(&self, key: &K) -> u64
        ensures bound { result ≤ length self.now }
        ensures value { IsTrue (is_sorted K.cmp self.now)
            → result ≡ count_up_to K.cmp key.now self.now }
    {
        self.count_to(true, key)
    }

    // Either of them.
    fn count_to(&self, with_equal: bool, key: &K) -> u64
        ensures bound { result ≤ length self.now }
        ensures value { IsTrue (is_sorted K.cmp self.now)
            → result ≡ count_to K.cmp with_equal key.now self.now }
    {
        match &self.node {
            Node::Leaf => 0,
            Node::Fork(branch) => {
                if stands_before(&branch.item.0, with_equal, key) {
                    branch.count - branch.right.len() + branch.right.count_to(with_equal, key)
                } else {
                    branch.left.count_to(with_equal, key)
                }
            }
        }
    }
}

// Whether a key stands before another, where an equal one does or not.
fn stands_before<K: Ord>(held: &K, with_equal: bool, key: &K) -> bool
    ensures { result ≡ stands_before with_equal (K.cmp held.now key.now) }
{
    match held.cmp(key) {
        Ordering::Less => true,
        Ordering::Equal => with_equal,
        Ordering::Greater => false,
    }
}
