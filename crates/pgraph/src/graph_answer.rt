// A call of a graph unit that changes nothing. Its reply was found before.
ghost use Rattle.std.specs.Prelude.{◌≡◌, true, false, [], None, OnOk, IfErr, OnErr};
ghost use Rattle.heap.specs.GateAsked.{IsAskedOften};
ghost use Rattle.structure_call.specs.Calling.{HasAnsweredCall, LeavesCall, was_asked, was_checked, was_cut};
ghost use Rattle.structure_call.specs.Checking.{MayBeCalled};
ghost use Rattle.heap_pass.specs.KeptReceipt.{KeepsReceipt};
ghost use Rattle.structure_call.specs.Planning.{IsPlan};
ghost use Rattle.structure_call.specs.Standing.{IsStanding};
ghost use Rattle.pgraph.specs.PGraph.{IsGraphUnit};

use crate::pgraph::PGraph;
use heap::Heap;
use heap_pass::Pass;
use mont_base::{CallRefusal, Gate, Op, Reply};
use structure_call::{answer, check_numbers, check_running};

impl PGraph {
    // Answers an operation that changes nothing with one entry, and keeps the receipt in the pass.
    //
    // Memory is taken before the first step, as by `perform`.
    #[inline(always)]
    pub(crate) fn answer<G: Gate>(
        &mut self,
        heap: &Heap,
        pass: &mut Pass<G>,
        op: &Op,
        reply: &Reply,
    ) -> Result<(), CallRefusal>
        requires stands { IsStanding heap.now self.old.region }
        requires pass { pass.old.ticket.table ≡ heap.now.table }
        requires plan { self.old.region.books.halted ≡ None
            → IsPlan self.old.region op.now reply.now [] }
        ensures gate { IsAskedOften G.cuts G.endless pass.old.gate pass.new.gate (was_cut result) }
        ensures unasked { was_asked result ≡ false → pass.new.gate ≡ pass.old.gate }
        ensures answered { OnOk result (KeepsReceipt pass.old.receipts.items
            pass.new.receipts.items (HasAnsweredCall heap.now self.old.region self.new.region
            pass.old.ticket pass.new.ticket op.now)) }
        ensures kept { OnErr result (pass.new.receipts.items ≡ pass.old.receipts.items) }
        ensures refused { IfErr result (λ why. LeavesCall heap.now self.old.region self.new.region
            pass.old.ticket pass.new.ticket op.now why) }
        ensures checked { was_checked result ≡ true
            → MayBeCalled pass.old.ticket self.old.region op.now }
        ensures stands { IsStanding heap.now self.new.region }
        ensures unit { IsGraphUnit self.new.region self.new.nodes }
    {
        check_running(heap, &mut self.region, pass)?;
        check_numbers(heap, &mut self.region, pass, &[], false)?;
        let Ok(()) = pass.reserve() else {
            return Err(CallRefusal::Memory);
        };
        answer(heap, &mut self.region, pass, op, reply)?;
        Ok(())
    }
}
