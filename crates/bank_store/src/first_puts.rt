// The first caller opens the accounts.
ghost use Rattle.std.specs.Prelude.{◌≡◌, ◌≢◌, IsSome, OnOk};
ghost use Rattle.mont_base.specs.State.{unit_of_op};
ghost use Rattle.bank_job.specs.Bank.{bank_layout};
ghost use Rattle.store.specs.StoreCalls.{IsSamePass};
ghost use Rattle.bank_store.specs.OpenedAccounts.{AreOfUnits, HasMadePut, HasMadePuts, HasOpened};

use bank_job::opening_puts;
use heap_pass::{HeapName, Pass};
use index_kit::Index;
use mont_base::{CallRefusal, Op, Steady};
use std::alloc::{AllocError, Global};
use std::sync::Wait;
use store::Store;

// Puts what the accounts hold at first, and waits until that is durable. After the last clock
// nothing more becomes durable, and then the bank goes on all the same.
pub(crate) fn open_accounts<R: Wait, N: HeapName, I: Index>(
    rt: &R,
    alloc: Global,
    store: &Store<N, I>,
    pass: &mut Pass<Steady>,
) -> Result<(), AllocError>
    requires pass { pass.old.ticket.table ≡ N.heap.table }
    requires layout { N.heap.opening.layout ≡ bank_layout }
    ensures same { IsSamePass pass.old pass.new }
    ensures opened { OnOk result (HasOpened N.heap pass.old.ticket pass.new.ticket) }
{
    let puts = opening_puts(alloc)?;
    make_puts(rt, store, pass, puts.as_slice())?;
    let _ = store.sync(rt, pass);
    Ok(())
}

// Makes the puts, one after the other.
fn make_puts<R: Wait, N: HeapName, I: Index>(
    rt: &R,
    store: &Store<N, I>,
    pass: &mut Pass<Steady>,
    puts: &[Op],
) -> Result<(), AllocError>
    requires pass { pass.old.ticket.table ≡ N.heap.table }
    requires layout { N.heap.opening.layout ≡ bank_layout }
    requires puts { AreOfUnits puts.now }
    ensures same { IsSamePass pass.old pass.new }
    ensures made { OnOk result (HasMadePuts N.heap pass.old.ticket pass.new.ticket puts.now) }
{
    for put in puts {
        make_put(rt, store, pass, put)?;
    }
    Ok(())
}

fn make_put<R: Wait, N: HeapName, I: Index>(
    rt: &R,
    store: &Store<N, I>,
    pass: &mut Pass<Steady>,
    put: &Op,
) -> Result<(), AllocError>
    requires pass { pass.old.ticket.table ≡ N.heap.table }
    requires layout { N.heap.opening.layout ≡ bank_layout }
    requires unit { IsSome (unit_of_op bank_layout put.now) }
    ensures same { IsSamePass pass.old pass.new }
    ensures made { OnOk result (HasMadePut N.heap pass.old.ticket pass.new.ticket put.now) }
{
    let _heap = store.heap();
    match store.apply(rt, pass, put) {
        Ok(_receipt) => Ok(()),
        Err(why) => leave_out(why),
    }
}

// A put that was refused is left out, but for want of memory.
fn leave_out(why: CallRefusal) -> Result<(), AllocError>
    ensures { OnOk result (why ≢ CallRefusal.Memory) }
{
    if why == CallRefusal::Memory {
        return Err(AllocError);
    }
    Ok(())
}
