// Calls of a store, one after the other.
ghost use Rattle.std.specs.Prelude.{◌≡◌, All};
ghost use Rattle.store.specs.StoreCalls.{IsSamePass};
ghost use Rattle.store_bench.specs.AskableOps.{CanBeAsked};

use heap_pass::{HeapName, Pass};
use index_kit::Index;
use mont_base::{CallRefusal, Fuel, Op};
use std::sync::Wait;
use store::{Store, StoreRefusal};

// How often a caller syncs where a unit is full, since others may fill it again meanwhile.
const TRIES: u64 = 1000;

// Makes each of these calls once, in their order. Where a unit is full, the caller syncs and calls
// again.
#[inline(never)]
pub(crate) fn call_all<R: Wait, N: HeapName, I: Index>(
    rt: &R,
    store: &Store<N, I>,
    pass: &mut Pass<Fuel>,
    ops: &[Op],
) -> Result<(), StoreRefusal>
    requires pass { pass.old.ticket.table ≡ N.heap.table }
    requires ops { All (CanBeAsked N.heap.opening.layout) ops.now }
    ensures { IsSamePass pass.old pass.new }
{
    for op in ops {
        match store.apply(rt, pass, op) {
            Ok(_) => {}
            Err(CallRefusal::Full { .. }) => call_when_free(rt, store, pass, op)?,
            Err(why) => return Err(why.into()),
        }
    }
    Ok(())
}

// Syncs and calls again, until the unit has room or the tries are at their end.
#[cold]
fn call_when_free<R: Wait, N: HeapName, I: Index>(
    rt: &R,
    store: &Store<N, I>,
    pass: &mut Pass<Fuel>,
    op: &Op,
) -> Result<(), StoreRefusal>
    requires pass { pass.old.ticket.table ≡ N.heap.table }
    requires op { CanBeAsked N.heap.opening.layout op.now }
    ensures { IsSamePass pass.old pass.new }
{
    for _again in 0..TRIES {
        store.sync(rt, pass)?;
        match store.apply(rt, pass, op) {
            Ok(_) => return Ok(()),
            Err(CallRefusal::Full { .. }) => {}
            Err(why) => return Err(why.into()),
        }
    }
    store.apply(rt, pass, op)?;
    Ok(())
}
