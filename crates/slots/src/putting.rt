// How a record is written into the first free slot, and what becomes of written records.
ghost use Rattle.std.specs.Prelude.{◌≡◌, ◌<◌, length, None, IfOk, is_err, OnOk, OnErr};
ghost use Rattle.slots.specs.Books.{Agrees, IsRegionOf, StaysOpen, books_showing};
ghost use Rattle.slots.specs.WrittenRecords.{CanPut};
ghost use Rattle.heap.specs.GateAsked.{IsAskedOften};
ghost use Rattle.slots.specs.Putting.{MayWrite, MayStore, HasPut, WasCutPutting, HasJustAnswered, unit_put, IsUnfinishedAt};

use crate::books::Written;
use crate::changes::slot_before;
use crate::region::Region;
use heap::{Heap, UnitSeat};
use mont_base::{BODY, Change, Cut, Epoch, Gate, Held, LABEL, Receipt, Slot};
use payload::kind_word;

impl Region {
    /// Writes the record of a change into the first free slot: its fields in their order, and the
    /// label's epoch last. The unit is registered at the epoch.
    ///
    /// After a cut the first free slot may be written in part.
    pub fn put_record<G: Gate>(
        &mut self,
        heap: &Heap,
        change: &Change,
        epoch: Epoch,
        gate: &mut G,
    ) -> Result<Slot, Cut>
        requires heap { IsRegionOf heap.now self.old }
        requires agrees { Agrees self.old }
        requires running { self.old.books.halted ≡ None }
        requires registered { MayWrite self.old.seat.known.part epoch }
        requires room { 0 < length self.old.books.free }
        requires may { CanPut self.old.books self.old.seat.known.part.records change.now }
        ensures gate { IsAskedOften G.cuts G.endless gate.old gate.new (is_err result) }
        ensures put { IfOk result (λ slot. HasPut self.old self.new change.now epoch slot) }
        ensures cut { OnErr result (WasCutPutting self.old self.new change.now epoch) }
        ensures agrees { Agrees self.new }
        ensures stays { StaysOpen heap.now self.old self.new }
    {
        let slot = self.books.first_free();
        let written = Written {
            held: self.record_by(change, epoch, slot),
            before: slot_before(change),
        };
        store_record(heap, &mut self.seat, &written.held, gate)?;
        self.books.put(written, change);
        Ok(slot)
    }

    /// Makes the written records the unit's, and retires what they supersede. The seat has just
    /// answered with this receipt; after a read there are none.
    #[inline(always)]
    pub fn left(&mut self, receipt: &Receipt)
        requires { HasJustAnswered self.old receipt.now }
        ensures seat { self.new.seat ≡ self.old.seat }
        ensures books { self.new.books ≡ books_showing self.old.books self.old.seat.known.part }
        ensures agrees { Agrees self.new }
    {
        self.books.settle(receipt.place + 1, receipt.entry.epoch);
    }
}

// Stores the words of a record into its slot.
fn store_record<G: Gate>(
    heap: &Heap,
    seat: &mut UnitSeat,
    held: &Held,
    gate: &mut G,
) -> Result<(), Cut>
    requires heap { seat.old.table ≡ heap.now.table }
    requires may { MayStore heap.now.opening.layout seat.old.known held.now }
    ensures gate { IsAskedOften G.cuts G.endless gate.old gate.new (is_err result) }
    ensures ok { OnOk result (seat.new
        ≡ record { table = seat.old.table; known = unit_put seat.old.known held.now }) }
    ensures cut { OnErr result (IsUnfinishedAt seat.old seat.new held.now) }
{
    let label = &held.label;
    heap.store_word(seat, held.slot, 1, kind_word(label), gate)?;
    heap.store_word(seat, held.slot, 2, label.identity, gate)?;
    heap.store_word(seat, held.slot, 3, label.version, gate)?;
    for at in 0..BODY {
        let field = LABEL + at;
        heap.store_word(seat, held.slot, field as u64, held.body[at], gate)?;
    }
    heap.store_word(seat, held.slot, 0, label.epoch, gate)
}
