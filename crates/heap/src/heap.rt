// The heap.
ghost use Rattle.std.specs.Prelude.{◌≡◌, ◌<◌};
ghost use Rattle.mont_base.specs.declared.constants.TheConstants.{FIELDS};
ghost use Rattle.mont_base.specs.Layout.{total_of, word_of};
ghost use Rattle.core_steps.specs.Advancing.{unit_at_hand};
ghost use Rattle.heap_rule.specs.TableWords.{announcement_place, durable_place};

use crate::flush_calls::unit;
use crate::seats::{AdvSeat, UnitSeat};
use atomic_table::Table;
use heap_rule::{Cell, Opening, Rule, View};
use mont_base::{FIELDS, Layout, Slot};
use std::alloc::Global;
use std::marker::Model;

/// The words and lists of a store, shared between threads.
///
/// Contracts see which table it is, and with which words the store opened.
#[derive(Drop)]
pub struct Heap {
    pub(crate) table: Table<Cell, View, Opening, Rule, Global>,
    pub(crate) layout: Layout,
}

impl Model for Heap {
    ghost use Rattle.heap.specs.HeapShown.{HeapShown, IsHeap};

    ghost Value = { HeapShown };

    ghost view = { λ h. record { table = h.table.shared.table_id; opening = h.table.shared.key } };

    ghost invariant = { λ h. IsHeap h.table.shared.table_id h.table.shared.key h.layout };
}

impl Heap {
    /// The layout of the store.
    pub fn layout(&self) -> Layout
        ensures { result ≡ self.now.opening.layout }
    {
        self.layout
    }

    // The place of a unit's announcement among the words of the table.
    pub(crate) fn announcement(&self, seat: &UnitSeat) -> usize
        requires { seat.now.table ≡ self.now.table }
        ensures place { result
            ≡ announcement_place self.now.opening.layout seat.now.known.unit }
        ensures inside { result < self.now.table.words }
    {
        (2 * self.layout.words() + 8 * seat.unit) as usize
    }

    // The place of the durable clock.
    pub(crate) fn durable_clock(&self) -> usize
        ensures place { result ≡ durable_place self.now.opening.layout 0 }
        ensures inside { result < self.now.table.words }
    {
        self.layout.words() as usize
    }

    // The place of the announcement that the advancer loads next.
    pub(crate) fn announcement_at_hand(&self, seat: &AdvSeat) -> usize
        requires { seat.now.table ≡ self.now.table }
        ensures place { result
            ≡ announcement_place self.now.opening.layout (unit_at_hand seat.now.known.part) }
        ensures inside { result < self.now.table.words }
    {
        (2 * self.layout.words() + 8 * unit(seat.part)) as usize
    }

    // The place of the current word of a field.
    pub(crate) fn current(&self, slot: Slot, field: u64) -> usize
        requires slot { slot < total_of self.now.opening.layout }
        requires field { field < FIELDS }
        ensures place { result ≡ word_of slot field }
        ensures inside { result < self.now.table.words }
    {
        let words = self.layout.words();
        let place = 1 + FIELDS as u64 * slot + field;
        prove!(place < words);
        place as usize
    }

    // The place of its durable word.
    pub(crate) fn durable(&self, slot: Slot, field: u64) -> usize
        requires slot { slot < total_of self.now.opening.layout }
        requires field { field < FIELDS }
        ensures place { result ≡ durable_place self.now.opening.layout (word_of slot field) }
        ensures inside { result < self.now.table.words }
    {
        let words = self.layout.words();
        let place = 1 + FIELDS as u64 * slot + field;
        prove!(place < words);
        (words + place) as usize
    }
}
