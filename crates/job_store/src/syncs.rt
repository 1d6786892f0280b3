// The first of a store's callers hears what the others have seen, and syncs for all.
ghost use Rattle.std.specs.Prelude.{◌≡◌, ◌≤◌, All, length, map, IfOk, IfErr, OnOk};
ghost use Rattle.heap_pass.specs.Kept.{IsWhole};
ghost use Rattle.caller.specs.Syncing.{KeepsSeen};
ghost use Rattle.store.specs.Store.{AreAllCallers};
ghost use Rattle.job_store.specs.SyncedRun.{HasHeardAll, IsSynced, IsSyncedForAll, KeepAnswers, KnowsWhy, FirstKnowsWhy};

use caller::{SyncRefusal, hear, tell};
use heap_pass::{HeapName, Pass};
use index_kit::Index;
use mont_base::Fuel;
use montage::Store;
use std::alloc::{AllocError, Global};
use std::sync::Wait;

// The first caller hears each other one, and waits until all that any of them has seen is durable.
pub(crate) fn sync_for_all<R: Wait, N: HeapName, I: Index>(
    rt: &R,
    alloc: Global,
    store: &Store<N, I>,
    passes: &mut [Pass<Fuel>],
) -> Result<Result<(), SyncRefusal>, AllocError>
    requires some { 1 ≤ length passes.old }
    requires callers { AreAllCallers N.heap (map (λ p. p.ticket) passes.old) }
    requires whole { All (λ p. IsWhole p.ticket p.receipts.items) passes.old }
    ensures callers { AreAllCallers N.heap (map (λ p. p.ticket) passes.new) }
    ensures whole { All (λ p. IsWhole p.ticket p.receipts.items) passes.new }
    ensures seen { KeepAnswers (map (λ p. p.ticket) passes.old)
        (map (λ p. p.ticket) passes.new) }
    ensures synced { IfOk result (λ answer. OnOk answer (IsSyncedForAll
        (map (λ p. p.ticket) passes.new))) }
    ensures refused { IfOk result (λ answer. IfErr answer (FirstKnowsWhy
        (map (λ p. p.ticket) passes.new) (map (λ p. p.gate) passes.old))) }
{
    hear_others(alloc, store, passes)?;
    Ok(sync_one(rt, store, &mut passes[0]))
}

// The first caller hears each other one, and has then seen all that they have.
fn hear_others<N: HeapName, I: Index>(
    alloc: Global,
    store: &Store<N, I>,
    passes: &mut [Pass<Fuel>],
) -> Result<(), AllocError>
    requires some { 1 ≤ length passes.old }
    requires callers { AreAllCallers N.heap (map (λ p. p.ticket) passes.old) }
    ensures callers { AreAllCallers N.heap (map (λ p. p.ticket) passes.new) }
    ensures whole { All (λ p. IsWhole p.ticket p.receipts.items) passes.old
        → All (λ p. IsWhole p.ticket p.receipts.items) passes.new }
    ensures gates { map (λ p. p.gate) passes.new ≡ map (λ p. p.gate) passes.old }
    ensures seen { KeepAnswers (map (λ p. p.ticket) passes.old)
        (map (λ p. p.ticket) passes.new) }
    ensures heard { OnOk result (HasHeardAll (map (λ p. p.ticket) passes.new)) }
{
    for place in 1..passes.len() {
        let news = tell(alloc, store.heap(), &mut passes[place])?;
        hear(store.heap(), &mut passes[0], news);
    }
    Ok(())
}

// The caller waits until all that it has seen is durable.
fn sync_one<R: Wait, N: HeapName, I: Index>(
    rt: &R,
    store: &Store<N, I>,
    pass: &mut Pass<Fuel>,
) -> Result<(), SyncRefusal>
    requires pass { pass.old.ticket.table ≡ N.heap.table }
    ensures whole { IsWhole pass.old.ticket pass.old.receipts.items
        → IsWhole pass.new.ticket pass.new.receipts.items }
    ensures seen { KeepsSeen pass.old.ticket pass.new.ticket }
    ensures synced { OnOk result (IsSynced pass.new.ticket) }
    ensures refused { IfErr result (KnowsWhy pass.new.ticket pass.old.gate) }
{
    let _heap = store.heap();
    store.sync(rt, pass)?;
    Ok(())
}
