// How slots are closed that aren't needed.
ghost use Rattle.std.specs.Prelude.{◌≡◌, ◌≤◌, None, IfOk, OnOk, OnErr, is_err, max};
ghost use Rattle.heap_rule.specs.Plays.{IsDurable};
ghost use Rattle.mont_base.specs.Image.{clock_of};
ghost use Rattle.core_steps.specs.Closing.{IsFirstDue};
ghost use Rattle.slots.specs.Books.{Agrees, IsRegionOf, IsAtRest, StaysOpen};
ghost use Rattle.heap.specs.GateAsked.{IsAskedOften};
ghost use Rattle.slots.specs.Reclaiming.{HasClosed, WasCutReclaiming, WasCutClosingFirst, KeepsLive, IsSound, due_at, first_closed};

use crate::region::Region;
use heap::Heap;
use mont_base::{Cut, Epoch, Gate, Slot};

impl Region {
    /// Loads the durable clock once, closes all retired slots from the front that it lets be
    /// closed, each durably before the next one, and answers it.
    ///
    /// After a cut some of them are closed, and the label of the next one may be closed, but not
    /// yet durably.
    pub fn reclaim<G: Gate>(&mut self, heap: &Heap, gate: &mut G) -> Result<Epoch, Cut>
        requires heap { IsRegionOf heap.now self.old }
        requires agrees { Agrees self.old }
        requires running { self.old.books.halted ≡ None }
        requires rests { IsAtRest self.old.seat.known.part }
        ensures gate { IsAskedOften G.cuts G.endless gate.old gate.new (is_err result) }
        ensures clock { IfOk result (λ clock. IsDurable
            (max self.old.seat.known.part.durable self.old.seat.known.learnt.durable) clock) }
        ensures closed { IfOk result (λ clock. HasClosed self.old self.new clock
            (due_at clock self.old.books.retired)) }
        ensures rests { IfOk result (λ _. IsAtRest self.new.seat.known.part) }
        ensures cut { OnErr result (WasCutReclaiming self.old self.new) }
        ensures agrees { Agrees self.new }
        ensures stays { StaysOpen heap.now self.old self.new }
        ensures begun { IfOk result (λ clock. clock_of heap.now.opening.words ≤ clock) }
        ensures sound { IfOk result (λ _. IsSound heap.now self.new) }
        ensures live { IfOk result (λ _. KeepsLive self.old self.new) }
    {
        let clock = heap.load_durable(&mut self.seat, gate)?;
        while let Some(slot) = self.books.first_due(clock) {
            self.close_first(heap, slot, gate)?;
        }
        Ok(clock)
    }

    // Closes the first retired slot durably, and frees it.
    fn close_first<G: Gate>(&mut self, heap: &Heap, slot: Slot, gate: &mut G) -> Result<(), Cut>
        requires heap { IsRegionOf heap.now self.old }
        requires agrees { Agrees self.old }
        requires running { self.old.books.halted ≡ None }
        requires rests { IsAtRest self.old.seat.known.part }
        requires due { IsFirstDue self.old.books.retired self.old.seat.known.part.durable slot }
        ensures gate { IsAskedOften G.cuts G.endless gate.old gate.new (is_err result) }
        ensures ok { OnOk result (self.new ≡ first_closed self.old slot) }
        ensures sound { OnOk result (IsSound heap.now self.new) }
        ensures cut { OnErr result (WasCutClosingFirst self.old self.new slot) }
        ensures agrees { Agrees self.new }
    {
        heap.close_label(&mut self.seat, slot, gate)?;
        heap.persist_close(&mut self.seat, slot, gate)?;
        self.books.free_retired(slot);
        Ok(())
    }
}
