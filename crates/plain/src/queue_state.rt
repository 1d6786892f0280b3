// A queue unit in memory.
ghost use Rattle.std.specs.Prelude.{◌≡◌, ◌≢◌, ◌↔◌, IsTrue, IfOk, OnOk, OnErr, [], ◌∷◌, ◌++◌, length, slice_get, drop};
ghost use Rattle.std.specs.VecDeque.Iter.{deque_iter_rest};
ghost use Rattle.mont_base.specs.State.{QueueOf, queue_step};

use crate::replies::earlier;
use mont_base::{Op, Reply};
use std::alloc::{AllocError, Global};
use std::collections::VecDeque;
use std::collections::vec_deque::Iter;
use std::marker::Model;

/// A queue of items. Contracts see it as the list from first to last.
#[derive(Clone, Debug, Drop)]
pub struct QueueState {
    items: VecDeque<u64>,
}

impl Model for QueueState {
    ghost use Rattle.std.specs.Prelude.{List, ℕ};

    ghost Value = { List ℕ };

    ghost view = { λ s. s.items.items };
}

impl QueueState {
    /// No items. It allocates nothing.
    pub fn new(alloc: Global) -> Self
        ensures { result ≡ [] }
    {
        QueueState {
            items: VecDeque::new(alloc),
        }
    }

    // The queue of these items, from first to last.
    pub(crate) fn from_items(items: VecDeque<u64>) -> QueueState
        ensures { result ≡ items.items }
    {
        QueueState { items }
    }

    /// Carries an operation out, and answers it. An operation on another kind of unit changes
    /// nothing, and neither does want of memory.
    pub fn apply(&mut self, op: &Op) -> Result<Reply, AllocError>
        ensures reply { IfOk result (λ r. r ≡ (queue_step self.old op.now).reply) }
        ensures state { OnOk result (QueueOf self.new ≡ (queue_step self.old op.now).state) }
        ensures err { OnErr result (self.new ≡ self.old) }
        ensures memory { OnErr result ((queue_step self.old op.now).effects ≢ []) }
    {
        match *op {
            Op::Enq { item, .. } => {
                self.push(item)?;
                Ok(Reply::Nothing)
            }
            Op::Deq { .. } => Ok(earlier(self.pop())),
            Op::Len { .. } => Ok(Reply::Count { number: self.len() }),
            _ => Ok(Reply::Nothing),
        }
    }

    /// Adds an item after the last. At `Err` nothing changed.
    pub fn push(&mut self, item: u64) -> Result<(), AllocError>
        ensures ok { OnOk result (self.new ≡ self.old ++ item ∷ []) }
        ensures err { OnErr result (self.new ≡ self.old) }
    {
        self.items.push_back(item)?;
        Ok(())
    }

    /// Takes the first item.
    pub fn pop(&mut self) -> Option<u64>
        ensures first { result ≡ slice_get self.old 0 }
        ensures rest { self.new ≡ drop 1 self.old }
    {
        self.items.pop_front()
    }

    /// The first item.
    pub fn first(&self) -> Option<u64>
        ensures { result ≡ slice_get self.now 0 }
    {
        self.items.front().copied()
    }

    /// How many items there are.
    pub fn len(&self) -> u64
        ensures { result ≡ length self.now }
    {
        self.items.len() as u64
    }

    /// The items from first to last.
    pub fn items(&self) -> Iter<'_, u64>
        ensures { deque_iter_rest result ≡ self.now }
    {
        self.items.iter()
    }

    /// Whether another queue has the same items in the same order.
    pub fn has_same_items(&self, other: &QueueState) -> bool
        ensures { IsTrue result ↔ (self.now ≡ other.now) }
    {
        self.items == other.items
    }
}
