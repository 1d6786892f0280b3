// A vector that contracts see as the list of its items.
ghost use Rattle.std.specs.Prelude.{◌≡◌, ◌==◌, ◌<◌, [], ◌∷◌, ◌++◌, length, slice_get, slice_set, Some, None, MatchOption, OnOk, OnErr};
ghost use Rattle.std.specs.Borrow.{sem, Lends};
ghost use Rattle.mont_base.specs.contracts.sequence.Sequence.{the_row};

use std::alloc::{AllocError, Global};
use std::marker::Model;

/// A vector that contracts see as the list of its items, so that values which hold one can be
/// compared with what a definition computes.
#[derive(Debug, Drop)]
pub struct Sequence<T> {
    items: Vec<T>,
}

impl<T> Model for Sequence<T> {
    ghost use Rattle.std.specs.Prelude.{List};

    ghost Value = { List T };

    ghost view = { λ s. s.items.items };
}

impl<T> Sequence<T> {
    /// No items. It allocates nothing.
    pub fn new(alloc: Global) -> Self
        ensures { result ≡ [] }
    {
        Sequence {
            items: Vec::new(alloc),
        }
    }

    /// The items of a vector, which is neither copied nor grown.
    pub fn from_vec(items: Vec<T>) -> Self
        ensures { result ≡ items.items }
    {
        Sequence { items }
    }

    /// Gives the vector back.
    pub fn into_vec(self) -> Vec<T>
        ensures { result.items ≡ self }
    {
        let Sequence { items } = self;
        items
    }

    /// How many items there are.
    pub fn len(&self) -> u64
        ensures { result ≡ length self.now }
    {
        self.items.len() as u64
    }

    /// Whether there are none.
    pub fn is_empty(&self) -> bool
        ensures { result ≡ (length self.now == 0) }
    {
        self.items.is_empty()
    }

    /// The items as a slice.
    pub fn as_slice(&self) -> &[T]
        ensures { result.now ≡ self.now }
    {
        self.items.as_slice()
    }

    /// The item at a place.
    pub fn get(&self, place: u64) -> Option<&T>
        ensures { MatchOption result (slice_get self.now place ≡ None)
            (λ x. slice_get self.now place ≡ Some x.now) }
    {
        if place < self.len() {
            Some(&self.items[place as usize])
        } else {
            None
        }
    }

    /// The item at a place, to be changed there.
    pub fn item_mut(&mut self, place: u64) -> &mut T
        requires { place < length self.old }
        ensures* writes_back { sem 𝓛
            (Lends (the_row T.row) T.row self.entry result (slice_set self.old place)) }
        ensures value { slice_get self.old place ≡ Some result.now }
    {
        &mut self.items[place as usize]
    }

    /// Adds an item at the end. At `Err` nothing changed.
    pub fn push(&mut self, item: T) -> Result<(), AllocError>
    where
        T: Drop,
        ensures ok { OnOk result (self.new ≡ self.old ++ item ∷ []) }
        ensures err { OnErr result (self.new ≡ self.old) }
    {
        self.items.push(item)?;
        Ok(())
    }

    /// Puts an item in the place of another.
    pub fn set(&mut self, place: u64, item: T)
    where
        T: Drop,
        requires { place < length self.old }
        ensures { self.new ≡ slice_set self.old place item }
    {
        self.items[place as usize] = item;
    }
}
