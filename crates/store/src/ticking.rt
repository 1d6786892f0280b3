// A caller moves the clock on, and waits until what it has seen is durable.
ghost use Rattle.std.specs.Prelude.{◌≡◌, length, IfOk, IfErr, OnErr};
ghost use Rattle.heap_rule.specs.Views.{caller_heard, note_of_advancer};
ghost use Rattle.heap.specs.GateAsked.{IsAskedOften};
ghost use Rattle.advance.specs.Advance.{was_cut};
ghost use Rattle.caller.specs.Syncing.{KeepsSeen, HasSynced, LeavesUnsynced};
ghost use Rattle.caller.specs.Syncing as syncs;
ghost use Rattle.store.specs.StoreCalls.{IsSamePass};
ghost use Rattle.store.specs.Ticking.{HasTicked};

use crate::store::Store;
use advance::{AdvanceRefusal, Advancer};
use caller::{SyncRefusal, sync};
use heap::Heap;
use heap_pass::{HeapName, Pass};
use index_kit::Index;
use mont_base::{Epoch, Gate};
use std::sync::Wait;

impl<N: HeapName, I: Index> Store<N, I> {
    /// Advances the clock once, or goes on with the advance that is under way, under the advancer's
    /// lock. The advancer takes a note of the pass before, and the pass one of the advancer after,
    /// whatever the answer is.
    pub fn tick<R: Wait, G: Gate>(
        &self,
        rt: &R,
        pass: &mut Pass<G>,
    ) -> Result<Epoch, AdvanceRefusal>
        requires pass { pass.old.ticket.table ≡ N.heap.table }
        ensures gate { IsAskedOften G.cuts G.endless pass.old.gate pass.new.gate (was_cut result) }
        ensures receipts { pass.new.receipts ≡ pass.old.receipts }
        ensures same { IsSamePass pass.old pass.new }
        ensures ticked { HasTicked N.heap pass.old.ticket pass.new.ticket result }
    {
        let mut guard = self.advancer.lock(rt);
        let named = &mut *guard;
        named.part.show(&self.heap, &mut pass.ticket);
        let answer = named.part.advance(&self.heap, &mut pass.gate);
        take_note(&self.heap, &mut named.part, pass);
        // What is looked at before the lock is left is not copied whole.
        match answer {
            Ok(clock) => Ok(clock),
            Err(why) => Err(why),
        }
    }

    /// Waits until all that the caller has seen is durable, and answers the durable clock that
    /// shows it.
    ///
    /// It may wait for the advancer, and for units that are within an earlier epoch.
    pub fn sync<R: Wait, G: Gate>(&self, rt: &R, pass: &mut Pass<G>) -> Result<Epoch, SyncRefusal>
        requires pass { pass.old.ticket.table ≡ N.heap.table }
        ensures gate { IsAskedOften G.cuts G.endless pass.old.gate pass.new.gate
            (syncs.was_cut result) }
        ensures receipts { pass.new.receipts ≡ pass.old.receipts }
        ensures same { IsSamePass pass.old pass.new }
        ensures seen { KeepsSeen pass.old.ticket pass.new.ticket }
        ensures synced { IfOk result (λ clock. HasSynced pass.old.ticket pass.new.ticket clock) }
        ensures unsynced { OnErr result (pass.new.ticket.known.part.synced
            ≡ pass.old.ticket.known.part.synced) }
        ensures refused { IfErr result (λ why. LeavesUnsynced N.heap pass.old.ticket
            pass.new.ticket why) }
    {
        sync(rt, &self.heap, &self.advancer, pass)
    }
}

// The caller takes a note of the advancer.
fn take_note<G: Gate>(heap: &Heap, advancer: &mut Advancer, pass: &mut Pass<G>)
    requires heap { advancer.old.table ≡ heap.now.table }
    requires ticket { pass.old.ticket.table ≡ heap.now.table }
    ensures advancer { advancer.new ≡ advancer.old }
    ensures caller { pass.new.ticket ≡ record {
      table = pass.old.ticket.table;
      known = caller_heard pass.old.ticket.known
          (note_of_advancer (length pass.old.ticket.known.part.fronts) advancer.old.known);
    } }
    ensures gate { pass.new.gate ≡ pass.old.gate }
    ensures receipts { pass.new.receipts ≡ pass.old.receipts }
{
    advancer.hear(heap, &mut pass.ticket);
}
