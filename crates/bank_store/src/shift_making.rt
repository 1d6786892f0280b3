// The shifts of one caller.
ghost use Rattle.std.specs.Prelude.{◌≡◌, ◌≢◌, All, OnOk};
ghost use Rattle.bank_job.specs.Bank.{bank_layout};
ghost use Rattle.bank_job.specs.Shifts.{IsBetweenUnits};
ghost use Rattle.store.specs.StoreCalls.{IsSamePass};
ghost use Rattle.bank_store.specs.MadeShifts.{HasMadeShift, HasMadeShifts};

use bank_job::Shift;
use heap_pass::{HeapName, Pass};
use index_kit::Index;
use mont_base::Steady;
use std::alloc::AllocError;
use std::sync::Wait;
use store::{ShiftRefusal, Store};

// Makes the shifts in their order. One that is refused for another cause than memory is passed
// over.
pub(crate) fn make_shifts<R: Wait, N: HeapName, I: Index>(
    rt: &R,
    store: &Store<N, I>,
    pass: &mut Pass<Steady>,
    shifts: &[Shift],
) -> Result<(), AllocError>
    requires pass { pass.old.ticket.table ≡ N.heap.table }
    requires layout { N.heap.opening.layout ≡ bank_layout }
    requires units { All IsBetweenUnits shifts.now }
    ensures same { IsSamePass pass.old pass.new }
    ensures made { OnOk result (HasMadeShifts N.heap pass.old.ticket pass.new.ticket shifts.now) }
{
    for shift in shifts {
        make_shift(rt, store, pass, shift)?;
    }
    Ok(())
}

fn make_shift<R: Wait, N: HeapName, I: Index>(
    rt: &R,
    store: &Store<N, I>,
    pass: &mut Pass<Steady>,
    shift: &Shift,
) -> Result<(), AllocError>
    requires pass { pass.old.ticket.table ≡ N.heap.table }
    requires layout { N.heap.opening.layout ≡ bank_layout }
    requires units { IsBetweenUnits shift.now }
    ensures same { IsSamePass pass.old pass.new }
    ensures made { OnOk result (HasMadeShift N.heap pass.old.ticket pass.new.ticket shift.now) }
{
    let _heap = store.heap();
    let Shift { from, to, amount } = *shift;
    match store.shift(rt, pass, from, to, amount) {
        Ok(_receipts) => Ok(()),
        Err(why) => pass_over(why),
    }
}

// A shift that was refused is passed over, but for want of memory.
fn pass_over(why: ShiftRefusal) -> Result<(), AllocError>
    ensures { OnOk result (why ≢ ShiftRefusal.Memory) }
{
    if why == ShiftRefusal::Memory {
        return Err(AllocError);
    }
    Ok(())
}
