// The steps by which a unit writes a record into a slot, and closes a slot that isn't needed.
ghost use Rattle.std.specs.Prelude.{◌≡◌, ◌<◌, ℕ, OnOk, OnErr};
ghost use Rattle.mont_base.specs.Layout.{total_of, word_of};
ghost use Rattle.core_steps.specs.Storing.{IsFreeSlot, CanStore};
ghost use Rattle.core_steps.specs.Closing.{CanClose, CanPersistClose};
ghost use Rattle.heap_rule.specs.SoundUnits.{IsSoundUnit};
ghost use Rattle.heap_rule.specs.TableWords.{durable_place};
ghost use Rattle.heap_rule.specs.Views.{home_turn, the_unit, unit_view, unit_wrote, unit_closed, unit_persisted};
ghost use Rattle.heap.specs.GateAsked.{IsAskedOnce};

use crate::heap::Heap;
use crate::seats::UnitSeat;
use atomic_table::Seat;
use heap_rule::{Cell, ClosesLabel, Opened, PersistsClose, Stores, View};
use mont_base::{Cut, Gate, Slot};
use std::marker::Brand;

impl Heap {
    /// Stores a field of the record that the unit writes: the fields from the second on in their
    /// order, and the label's epoch last.
    pub fn store_word<G: Gate>(
        &self,
        seat: &mut UnitSeat,
        slot: Slot,
        field: u64,
        value: u64,
        gate: &mut G,
    ) -> Result<(), Cut>
        requires heap { seat.old.table ≡ self.now.table }
        requires may { CanStore
            (IsFreeSlot self.now.opening.layout seat.old.known.unit seat.old.known.part slot)
            seat.old.known.unit seat.old.known.part slot field value }
        requires slot { slot < total_of self.now.opening.layout }
        ensures gate { IsAskedOnce G.cuts G.endless G.asked gate.old gate.new result }
        ensures ok { OnOk result (seat.new ≡ record {
          table = seat.old.table;
          known = unit_wrote seat.old.known slot field value;
        }) }
        ensures cut { OnErr result (seat.new ≡ seat.old) }
    {
        gate.step()?;
        let place = self.current(slot, field);
        self.table
            .shared
            .store::<Stores>(&mut seat.seat, place, value);
        Ok(())
    }

    /// Closes the label of the first retired slot, which is due, or of the first lost one.
    pub fn close_label<G: Gate>(
        &self,
        seat: &mut UnitSeat,
        slot: Slot,
        gate: &mut G,
    ) -> Result<(), Cut>
        requires heap { seat.old.table ≡ self.now.table }
        requires may { CanClose seat.old.known.part slot }
        requires slot { slot < total_of self.now.opening.layout }
        ensures gate { IsAskedOnce G.cuts G.endless G.asked gate.old gate.new result }
        ensures ok { OnOk result (seat.new
            ≡ record { table = seat.old.table; known = unit_closed seat.old.known slot }) }
        ensures cut { OnErr result (seat.new ≡ seat.old) }
    {
        gate.step()?;
        let place = self.current(slot, 0);
        self.table
            .shared
            .store::<ClosesLabel>(&mut seat.seat, place, 0);
        Ok(())
    }

    /// Makes the closed label durable. The slot is then free.
    pub fn persist_close<G: Gate>(
        &self,
        seat: &mut UnitSeat,
        slot: Slot,
        gate: &mut G,
    ) -> Result<(), Cut>
        requires heap { seat.old.table ≡ self.now.table }
        requires may { CanPersistClose seat.old.known.part slot }
        requires slot { slot < total_of self.now.opening.layout }
        ensures gate { IsAskedOnce G.cuts G.endless G.asked gate.old gate.new result }
        ensures ok { OnOk result (seat.new
            ≡ record { table = seat.old.table; known = unit_persisted seat.old.known slot }) }
        ensures sound { OnOk result ((now durable : ℕ)
            × IsSoundUnit self.now.opening now durable seat.new.known) }
        ensures cut { OnErr result (seat.new ≡ seat.old) }
    {
        gate.step()?;
        let place = self.durable(slot, 0);
        self.store_closed::<Brand>(&mut seat.seat, slot, place);
        Ok(())
    }

    // The store of a closed durable label, by a unit's seat.
    fn store_closed<N: Opened>(&self, seat: &mut Seat<Cell, View>, slot: Slot, place: usize)
        requires heap { seat.old.table_id ≡ self.now.table }
        requires view { seat.old.me.0 ≡ unit_view (the_unit seat.old.me.0) }
        requires place { place ≡ durable_place self.now.opening.layout (word_of slot 0) }
        requires inside { place < self.now.table.words }
        requires may { CanPersistClose (the_unit seat.old.me.0).part slot }
        requires slot { slot < total_of self.now.opening.layout }
        requires home { (the_unit seat.old.me.0).turn ≡ home_turn }
        requires opening { N.opening ≡ self.now.opening }
        ensures seat { seat.new.table_id ≡ seat.old.table_id }
        ensures view { seat.new.me
            ≡ (unit_view (unit_persisted (the_unit seat.old.me.0) slot), seat.old.me.1) }
        ensures sound { (now durable : ℕ) × IsSoundUnit N.opening now durable
            (unit_persisted (the_unit seat.old.me.0) slot) }
    {
        self.table.shared.store::<PersistsClose<N>>(seat, place, 0);
    }
}
