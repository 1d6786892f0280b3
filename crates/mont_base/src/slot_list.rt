// A list of slots whose room was made before it is filled.
ghost use Rattle.std.specs.Prelude.{◌≡◌, ◌==◌, ◌<◌, [], ◌∷◌, ◌++◌, length, slice_index, IfOk};

use crate::layout::Slot;
use std::alloc::{AllocError, Global};
use std::marker::Model;

/// Slots in the order in which they were pushed. Its room is made once, so a push takes no memory.
///
/// Contracts see the slots, and how many there is room for.
#[derive(Debug, Drop)]
pub struct SlotList {
    slots: Vec<Slot>,
    room: u64,
}

impl Model for SlotList {
    ghost use Rattle.std.specs.Prelude.{◌≤◌, length};
    ghost use Rattle.std.specs.Vec.{vec_capacity};
    ghost use Rattle.mont_base.specs.SlotLists.{Roomy};

    ghost Value = { Roomy };

    ghost view = { λ l. record { slots = l.slots.items; room = l.room } };

    ghost invariant = { λ l. (l.room ≤ vec_capacity l.slots) × (length l.slots.items ≤ l.room) };
}

impl SlotList {
    /// No slots, and room for so many.
    pub fn with_room(alloc: Global, n: u64) -> Result<SlotList, AllocError>
        ensures { IfOk result (λ list. list ≡ record { slots = []; room = n }) }
    {
        Ok(SlotList {
            slots: Vec::with_capacity(alloc, n as usize)?,
            room: n,
        })
    }

    /// How many slots there are.
    pub fn len(&self) -> u64
        ensures { result ≡ length self.now.slots }
    {
        self.slots.len() as u64
    }

    /// Whether there are none.
    pub fn is_empty(&self) -> bool
        ensures { result ≡ (length self.now.slots == 0) }
    {
        self.slots.is_empty()
    }

    /// The slot at a place.
    pub fn at(&self, place: u64) -> Slot
        requires { place < length self.now.slots }
        ensures { result ≡ slice_index self.now.slots place }
    {
        self.slots[place as usize]
    }

    /// Adds a slot at the end, for which there is room.
    pub fn push(&mut self, slot: Slot)
        requires { length self.old.slots < self.old.room }
        ensures { self.new ≡ record { slots = self.old.slots ++ slot ∷ []; room = self.old.room } }
    {
        match self.slots.push(slot) {
            Ok(()) => {}
            Err(_) => unreachable!(),
        }
    }

    /// Lets all slots go. The room stays.
    pub fn clear(&mut self)
        ensures { self.new ≡ record { slots = []; room = self.old.room } }
    {
        self.slots.clear();
    }
}
