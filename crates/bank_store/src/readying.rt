// The callers of the bank get ready to shift.
ghost use Rattle.std.specs.Prelude.{◌≡◌, ◌∷◌, ◌<◌, All, length, map, IfOk};
ghost use Rattle.std.specs.Vec.Iter.{into_iter_items};
ghost use Rattle.bank_job.specs.Bank.{bank_layout};
ghost use Rattle.store.specs.Store.{IsFirstPass};
ghost use Rattle.bank_store.specs.BankCallers.{AreNewTickets};
ghost use Rattle.bank_store.specs.Tellers.{AreReady};

use crate::first_puts::open_accounts;
use crate::tellers::Teller;
use caller::{hear, tell};
use heap_pass::{HeapName, Pass};
use index_kit::Index;
use mont_base::Steady;
use std::alloc::{AllocError, Global};
use std::sync::Wait;
use std::vec::IntoIter;
use store::Store;

// The callers, ready to shift. The first one has opened the accounts, and each other one has heard
// of it from the one before.
pub(crate) fn ready_tellers<R: Wait, N: HeapName, I: Index>(
    rt: &R,
    alloc: Global,
    store: &Store<N, I>,
    passes: Vec<Pass<Steady>>,
    number: u64,
) -> Result<Vec<Teller>, AllocError>
    requires layout { N.heap.opening.layout ≡ bank_layout }
    requires tickets { AreNewTickets N.heap (map (λ p. p.ticket) passes.items) }
    requires first { All (IsFirstPass N.heap) passes.items }
    ensures { IfOk result (λ tellers. AreReady N.heap number tellers.items) }
{
    let mut tellers = Vec::with_capacity(alloc, passes.len())?;
    let mut passes = passes.into_iter();
    let mut first = next_pass(&mut passes);
    open_accounts(rt, alloc, store, &mut first)?;
    let mut news = tell(alloc, store.heap(), &mut first)?;
    tellers.push(Teller::new(alloc, number, 0, first)?)?;
    for mut pass in passes {
        hear(store.heap(), &mut pass, news);
        news = tell(alloc, store.heap(), &mut pass)?;
        let caller = tellers.len() as u64;
        tellers.push(Teller::new(alloc, number, caller, pass)?)?;
    }
    Ok(tellers)
}

// The next of the passes. There is one.
fn next_pass(passes: &mut IntoIter<Pass<Steady>, Global>) -> Pass<Steady>
    requires { 0 < length (into_iter_items passes.old) }
    ensures { into_iter_items passes.old ≡ result ∷ into_iter_items passes.new }
{
    let Some(pass) = passes.next() else {
        unreachable!()
    };
    pass
}
