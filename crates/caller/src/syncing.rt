// A caller waits until all that it has seen is durable.
ghost use Rattle.std.specs.Prelude.{◌≡◌, IfOk, IfErr, OnOk, OnErr};
ghost use Rattle.heap.specs.GateAsked.{IsAskedOften};
ghost use Rattle.caller.specs.Syncing.{KeepsSeen, HasSynced, HasHeard, LeavesUnsynced, refusal_of_advance, was_cut};

use crate::sync_refusal::SyncRefusal;
use advance::Advancer;
use heap::Heap;
use heap_pass::{HeapName, Named, Pass};
use mont_base::{Epoch, Gate};
use std::sync::{Mutex, Wait};

/// Waits until the durable clock is two epochs or more past all that the caller has seen, and
/// answers that clock. Until then it advances the clock itself, once between two looks at it.
///
/// It may wait for the advancer, and for units that are within an earlier epoch.
pub fn sync<R: Wait, N: HeapName, G: Gate>(
    rt: &R,
    heap: &Heap,
    advancer: &Mutex<Named<N, Advancer>>,
    pass: &mut Pass<G>,
) -> Result<Epoch, SyncRefusal>
    requires heap { heap.now ≡ N.heap }
    requires pass { pass.old.ticket.table ≡ heap.now.table }
    ensures gate { IsAskedOften G.cuts G.endless pass.old.gate pass.new.gate (was_cut result) }
    ensures receipts { pass.new.receipts ≡ pass.old.receipts }
    ensures seen { KeepsSeen pass.old.ticket pass.new.ticket }
    ensures synced { IfOk result (λ clock. HasSynced pass.old.ticket pass.new.ticket clock) }
    ensures unsynced { OnErr result (pass.new.ticket.known.part.synced
        ≡ pass.old.ticket.known.part.synced) }
    ensures refused { IfErr result (λ why. LeavesUnsynced heap.now pass.old.ticket
        pass.new.ticket why) }
{
    for _ in rt.forever() {
        let clock = heap.seen_durable(&mut pass.ticket, &mut pass.gate)?;
        if pass.ticket.newest() <= clock - 2 {
            return Ok(clock);
        }
        advance_once(rt, heap, advancer, pass)?;
    }
    unreachable!()
}

// Goes on with the advance behind the lock. Where nobody can go on with it, the caller takes a note
// of the advancer.
fn advance_once<R: Wait, N: HeapName, G: Gate>(
    rt: &R,
    heap: &Heap,
    advancer: &Mutex<Named<N, Advancer>>,
    pass: &mut Pass<G>,
) -> Result<(), SyncRefusal>
    requires heap { heap.now ≡ N.heap }
    requires pass { pass.old.ticket.table ≡ heap.now.table }
    ensures gate { IsAskedOften G.cuts G.endless pass.old.gate pass.new.gate (was_cut result) }
    ensures receipts { pass.new.receipts ≡ pass.old.receipts }
    ensures caller { OnOk result (pass.new.ticket ≡ pass.old.ticket) }
    ensures refused { IfErr result (λ why. HasHeard heap.now pass.old.ticket pass.new.ticket
        (refusal_of_advance why)) }
{
    let mut guard = advancer.lock(rt);
    let named = &mut *guard;
    let Err(refusal) = named.part.advance(heap, &mut pass.gate) else {
        return Ok(());
    };
    let Some(why) = SyncRefusal::of(refusal) else {
        return Ok(());
    };
    named.part.hear(heap, &mut pass.ticket);
    Err(why)
}
