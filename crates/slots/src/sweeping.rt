// How slots are closed that a crash left open.
ghost use Rattle.std.specs.Prelude.{◌≡◌, not, Some, None, IfOk, OnOk, OnErr, is_err};
ghost use Rattle.core_steps.specs.Stages.{is_empty};
ghost use Rattle.slots.specs.Books.{Agrees, IsRegionOf};
ghost use Rattle.heap.specs.GateAsked.{IsAskedOften};
ghost use Rattle.slots.specs.Sweeping.{MaySweep, swept, WasCutSweeping, sweeping_at};
ghost use Rattle.slots.specs.Rooms.{at_front};

use crate::region::Region;
use heap::Heap;
use mont_base::{Cut, Gate, Slot};

impl Region {
    /// Closes the first lost label durably, and frees its slot; whether there was one. Where an
    /// earlier call was cut between both, it goes on from there.
    pub fn sweep_one<G: Gate>(&mut self, heap: &Heap, gate: &mut G) -> Result<bool, Cut>
        requires heap { IsRegionOf heap.now self.old }
        requires agrees { Agrees self.old }
        requires running { self.old.books.halted ≡ None }
        requires stage { MaySweep self.old }
        ensures gate { IsAskedOften G.cuts G.endless gate.old gate.new (is_err result) }
        ensures found { IfOk result (λ found. found ≡ not (is_empty self.old.books.lost)) }
        ensures swept { IfOk result (λ _. self.new ≡ swept self.old) }
        ensures cut { OnErr result (WasCutSweeping self.old self.new) }
        ensures stage { MaySweep self.new }
        ensures agrees { Agrees self.new }
    {
        let Some(slot) = self.books.first_lost() else {
            return Ok(false);
        };
        self.close_lost(heap, slot, gate)?;
        heap.persist_close(&mut self.seat, slot, gate)?;
        self.books.free_lost(slot);
        Ok(true)
    }

    // Closes the label of the first lost slot, where it isn't closed.
    fn close_lost<G: Gate>(&mut self, heap: &Heap, slot: Slot, gate: &mut G) -> Result<(), Cut>
        requires heap { IsRegionOf heap.now self.old }
        requires agrees { Agrees self.old }
        requires running { self.old.books.halted ≡ None }
        requires stage { MaySweep self.old }
        requires first { at_front self.old.books.lost ≡ Some slot }
        ensures gate { IsAskedOften G.cuts G.endless gate.old gate.new (is_err result) }
        ensures ok { OnOk result (self.new ≡ sweeping_at self.old slot) }
        ensures cut { OnErr result (self.new ≡ self.old) }
    {
        if !self.books.sweeping {
            heap.close_label(&mut self.seat, slot, gate)?;
            self.books.sweeping = true;
        }
        Ok(())
    }
}
