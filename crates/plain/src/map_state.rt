// A map unit or an ordered unit in memory.
ghost use Rattle.std.specs.Prelude.{◌≡◌, ◌≢◌, ◌↔◌, ◌≤◌, IsTrue, IfOk, OnOk, OnErr, [], length};
ghost use Rattle.std.specs.FinMap as map;
ghost use Rattle.mont_base.specs.declared.constants.TheConstants.{MOST_PAIRS};
ghost use Rattle.mont_base.specs.State.{MapOf, map_step, pair_del, floor_of, rank_of, range_of};
ghost use Rattle.plain.specs.Ranges.{key_of, pairs_between};

use crate::replies::{earlier_text, key_found};
use mont_base::{Op, PairList, Reply, Text};
use std::alloc::{AllocError, Global};
use std::collections::BTreeMap;
use std::collections::btree_map::{Iter, Range};
use std::marker::Model;
use std::ops::Bound;

/// A map from keys to values, which is the state of a map unit and of an ordered one. Contracts see
/// it as the finite map.
#[derive(Clone, Debug, Drop)]
pub struct MapState {
    pairs: BTreeMap<Text, Text>,
}

/// The state of an ordered unit.
pub type OrderedState = MapState;

impl Model for MapState {
    ghost use Rattle.std.specs.Coded.{coded_ℕ, coded_list};
    ghost use Rattle.std.specs.FinMap as map;
    ghost use Rattle.mont_base.specs.State.{Pairs};

    ghost Value = { Pairs };

    ghost coded = { map.code (coded_list coded_ℕ) (coded_list coded_ℕ) };

    ghost view = { λ s. map.from_entries s.pairs.entries };
}

impl MapState {
    /// No pairs. It allocates nothing.
    pub fn new(alloc: Global) -> Self
        ensures { result ≡ map.empty }
    {
        MapState {
            pairs: BTreeMap::new(alloc),
        }
    }

    // The map of these pairs.
    pub(crate) fn from_map(pairs: BTreeMap<Text, Text>) -> MapState
        ensures { result ≡ map.from_entries pairs.entries }
    {
        MapState { pairs }
    }

    /// Carries an operation out, and answers it. An operation on another kind of unit changes
    /// nothing, and neither does want of memory.
    pub fn apply(&mut self, op: &Op) -> Result<Reply, AllocError>
        ensures reply { IfOk result (λ r. r ≡ (map_step self.old op.now).reply) }
        ensures state { OnOk result (MapOf self.new ≡ (map_step self.old op.now).state) }
        ensures err { OnErr result (self.new ≡ self.old) }
        ensures memory { OnErr result ((map_step self.old op.now).effects ≢ []) }
    {
        match *op {
            Op::Put { key, value } | Op::OPut { key, value, .. } => {
                Ok(earlier_text(self.insert(key, value)?))
            }
            Op::Get { key } | Op::OGet { key, .. } => Ok(earlier_text(self.get(&key))),
            Op::Del { key } | Op::ODel { key, .. } => Ok(self.delete(&key)),
            Op::OFloor { key, .. } => Ok(key_found(self.floor(&key))),
            Op::ORank { key, .. } => Ok(Reply::Count {
                number: self.rank(&key),
            }),
            Op::ORange { from, to, most, .. } => Ok(Reply::Pairs {
                number: self.count_between(&from, &to, most),
            }),
            _ => Ok(Reply::Nothing),
        }
    }

    /// Sets the value of a key, and gives the one before. At `Err` nothing changed.
    pub fn insert(&mut self, key: Text, value: Text) -> Result<Option<Text>, AllocError>
        ensures before { IfOk result (λ before. before ≡ map.get self.old key) }
        ensures ok { OnOk result (self.new ≡ map.insert self.old key value) }
        ensures err { OnErr result (self.new ≡ self.old) }
    {
        Ok(self.pairs.insert(key, value)?)
    }

    /// The value of a key.
    pub fn get(&self, key: &Text) -> Option<Text>
        ensures { result ≡ map.get self.now key.now }
    {
        self.pairs.get(key).copied()
    }

    /// Takes a key out, and gives its value.
    pub fn remove(&mut self, key: &Text) -> Option<Text>
        ensures before { result ≡ map.get self.old key.now }
        ensures after { self.new ≡ map.remove self.old key.now }
    {
        self.pairs.remove(key)
    }

    // Takes a key out, and answers what it had.
    fn delete(&mut self, key: &Text) -> Reply
        ensures reply { result ≡ (pair_del self.old key.now).reply }
        ensures state { MapOf self.new ≡ (pair_del self.old key.now).state }
    {
        earlier_text(self.remove(key))
    }

    /// The greatest key that isn't above this one.
    pub fn floor(&self, key: &Text) -> Option<Text>
        ensures { result ≡ key_of (floor_of self.now key.now) }
    {
        let (floor, _) = self.pairs.range(..=*key).next_back()?;
        Some(*floor)
    }

    /// How many keys are below this one.
    pub fn rank(&self, key: &Text) -> u64
        ensures { result ≡ rank_of self.now key.now }
    {
        self.pairs.range(..*key).count() as u64
    }

    /// Gives the run of a range: the first pairs, at most so many, with a key from one to another.
    pub fn range(&self, from: &Text, to: &Text, most: u64, pairs: &mut PairList)
        requires { most ≤ MOST_PAIRS }
        ensures { pairs.new ≡ range_of self.now from.now to.now most }
    {
        *pairs = PairList::empty();
        for (key, value) in self.pairs_between(from, to).take(most as usize) {
            pairs.push(*key, *value);
        }
    }

    // How many pairs have a key from one to another, counted up to so many.
    fn count_between(&self, from: &Text, to: &Text, most: u64) -> u64
        ensures { result ≡ length (range_of self.now from.now to.now most) }
    {
        self.pairs_between(from, to).take(most as usize).count() as u64
    }

    // The pairs with a key from one to another, by rising key.
    fn pairs_between(&self, from: &Text, to: &Text) -> Range<'_, Text, Text>
        ensures { result ≡ pairs_between self.now from.now to.now }
    {
        let end = if from <= to {
            Bound::Included(*to)
        } else {
            // from a key to below it there is none
            Bound::Excluded(*from)
        };
        self.pairs.range((Bound::Included(*from), end))
    }

    /// How many pairs there are.
    pub fn len(&self) -> u64
        ensures { result ≡ map.len self.now }
    {
        self.pairs.len() as u64
    }

    /// The pairs by rising key.
    pub fn iter(&self) -> Iter<'_, Text, Text>
        ensures { result ≡ map.entries self.now }
    {
        self.pairs.iter()
    }

    /// Whether another map has the same pairs.
    pub fn has_same_pairs(&self, other: &MapState) -> bool
        ensures { IsTrue result ↔ (self.now ≡ other.now) }
    {
        self.pairs.len() == other.pairs.len() && self.pairs == other.pairs
    }
}
