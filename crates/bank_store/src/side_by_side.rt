// The callers of the bank side by side, on threads.
ghost use Rattle.std.specs.Prelude.{◌≡◌, All, map, IfOk};
ghost use Rattle.std.specs.Thread.{IsSync, IsSend};
ghost use Rattle.heap.specs.FreshOpening.{fresh_opening};
ghost use Rattle.heap_pass.specs.Kept.{IsWhole};
ghost use Rattle.bank_job.specs.Bank.{bank_layout};
ghost use Rattle.bank_job.specs.Shifts.{IsBetweenUnits};
ghost use Rattle.store.specs.Store.{AreAllCallers, IsFirstPass};
ghost use Rattle.bank_store.specs.BankCallers.{AreNewTickets, HaveShifted};
ghost use Rattle.bank_store.specs.Tellers.{HasWorked, HaveWorked};

use crate::attempts::make_attempts;
use crate::readying::ready_tellers;
use crate::tellers::{Teller, passes_of};
use heap_pass::{HeapName, Pass};
use index_kit::Index;
use mont_base::Steady;
use std::alloc::{AllocError, Global};
use std::sync::Wait;
use std::thread::{Threads, for_each_mut, join_mut};
use store::Store;

const THREADS: usize = 4;

// Opens the accounts, and lets the callers shift. Gives their passes back.
pub(crate) fn run_tellers<R: Threads + Wait + Sync, N: HeapName + Send + Sync, I: Index + Send>(
    rt: &R,
    alloc: Global,
    store: &Store<N, I>,
    passes: Vec<Pass<Steady>>,
    number: u64,
) -> Result<Vec<Pass<Steady>>, AllocError>
    requires opening { N.heap.opening ≡ fresh_opening bank_layout 4 }
    requires tickets { AreNewTickets N.heap (map (λ p. p.ticket) passes.items) }
    requires first { All (IsFirstPass N.heap) passes.items }
    ensures callers { IfOk result (λ ps. AreAllCallers N.heap (map (λ p. p.ticket) ps.items)) }
    ensures whole { IfOk result (λ ps. All (λ p. IsWhole p.ticket p.receipts.items) ps.items) }
    ensures shifted { IfOk result
        (λ ps. HaveShifted N.heap number (map (λ p. p.ticket) ps.items)) }
{
    let ready = ready_tellers(rt, alloc, store, passes, number)?;
    let behind = all_worked(rt, store, ready);
    passes_of(alloc, behind)
}

// The callers after their work.
fn all_worked<R: Threads + Wait + Sync, N: HeapName + Send + Sync, I: Index + Send>(
    rt: &R,
    store: &Store<N, I>,
    mut tellers: Vec<Teller>,
) -> Vec<Teller>
    requires layout { N.heap.opening.layout ≡ bank_layout }
    requires pass { All (λ t. t.pass.ticket.table ≡ N.heap.table) tellers.items }
    requires between { All (λ t. All IsBetweenUnits t.shifts.items) tellers.items }
    ensures { HaveWorked N.heap tellers.items result.items }
{
    work_beside(rt, store, tellers.as_mut_slice());
    tellers
}

// All callers at work, beside the thread that moves the clock on.
fn work_beside<R: Threads + Wait + Sync, N: HeapName + Send + Sync, I: Index + Send>(
    rt: &R,
    store: &Store<N, I>,
    tellers: &mut [Teller],
)
    requires layout { N.heap.opening.layout ≡ bank_layout }
    requires pass { All (λ t. t.pass.ticket.table ≡ N.heap.table) tellers.old }
    requires between { All (λ t. All IsBetweenUnits t.shifts.items) tellers.old }
    ensures { HaveWorked N.heap tellers.old tellers.new }
{
    let ((), ()) = join_mut(
        rt,
        &mut || { make_attempts(rt, store, &mut Steady) },
        &mut ||
            requires { IsSync R.row × IsSend N.row × IsSync N.row × IsSend I.row
                × (N.heap.opening.layout ≡ bank_layout)
                × All (λ t. t.pass.ticket.table ≡ N.heap.table) tellers.now
                × All (λ t. All IsBetweenUnits t.shifts.items) tellers.now }
            ensures { HaveWorked N.heap tellers.entry.now tellers.exit.now }
        { work_each(rt, store, tellers) },
    );
}

// Each caller at work in a thread of its own.
fn work_each<R: Threads + Wait + Sync, N: HeapName + Send + Sync, I: Index + Send>(
    rt: &R,
    store: &Store<N, I>,
    tellers: &mut [Teller],
)
    requires layout { N.heap.opening.layout ≡ bank_layout }
    requires pass { All (λ t. t.pass.ticket.table ≡ N.heap.table) tellers.old }
    requires between { All (λ t. All IsBetweenUnits t.shifts.items) tellers.old }
    ensures { HaveWorked N.heap tellers.old tellers.new }
{
    for_each_mut(
        rt,
        tellers,
        THREADS,
        &|_caller: usize, teller: &mut Teller|
            requires { (N.heap.opening.layout ≡ bank_layout)
                × (teller.now.pass.ticket.table ≡ N.heap.table)
                × All IsBetweenUnits teller.now.shifts.items }
            ensures { HasWorked N.heap teller.entry.now teller.exit.now }
        { teller.work(rt, store) },
    );
}
