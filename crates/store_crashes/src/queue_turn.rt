// What a caller does with the queue before the crash, and again after it.
ghost use Rattle.std.specs.Prelude.{◌≡◌};
ghost use Rattle.store.specs.StoreCalls.{IsSamePass};

use heap_pass::{HeapName, Pass};
use index_kit::Index;
use mont_base::{Reply, Steady, UnitKind};
use std::sync::Wait;
use store::{Store, StoreRefusal};
use store_door::Work;

// Takes the first item, adds one that gets durable, and then one that needn't.
#[derive(Drop)]
pub(crate) struct Turn {
    item: u64,
    // What was taken, or why the turn was given up.
    pub(crate) took: Result<Reply, StoreRefusal>,
}

impl Turn {
    // A turn that adds this item.
    pub(crate) fn new(item: u64) -> Turn {
        Turn {
            item,
            took: Ok(Reply::Nothing),
        }
    }
}

impl<R: Wait> Work<R, Steady> for Turn {
    ghost did = { λ _ _ _ _. Unit {0} };

    fn work<N: HeapName, I: Index>(
        &mut self,
        rt: &R,
        store: &Store<N, I>,
        pass: &mut Pass<Steady>,
    ) {
        self.took = take_turn(rt, store, pass, self.item);
    }
}

fn take_turn<R: Wait, N: HeapName, I: Index>(
    rt: &R,
    store: &Store<N, I>,
    pass: &mut Pass<Steady>,
    item: u64,
) -> Result<Reply, StoreRefusal>
    requires { pass.old.ticket.table ≡ N.heap.table }
    ensures { IsSamePass pass.old pass.new }
{
    let layout = store.heap().layout();
    if layout.units() == 0 || layout.kind(0) != UnitKind::Queue {
        return Ok(Reply::Nothing);
    }
    let taken = store.deq(rt, pass, 0)?;
    store.enq(rt, pass, 0, item)?;
    store.sync(rt, pass)?;
    store.enq(rt, pass, 0, 99)?;
    Ok(taken.entry.reply)
}
