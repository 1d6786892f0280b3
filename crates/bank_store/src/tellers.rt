// The callers of the bank, each with the shifts that it is to make.
ghost use Rattle.std.specs.Prelude.{◌≡◌, ◌<◌, Ok, All, map, IfOk};
ghost use Rattle.bank_job.specs.Bank.{bank_layout};
ghost use Rattle.bank_job.specs.Shifts.{first_shifts, IsBetweenUnits};
ghost use Rattle.bank_store.specs.Tellers.{HasWorked};

use crate::shift_making::make_shifts;
use bank_job::{Shift, shifts_of_caller};
use heap_pass::{HeapName, Pass};
use index_kit::Index;
use mont_base::Steady;
use std::alloc::{AllocError, Global};
use std::sync::Wait;
use store::Store;

// A caller at work.
#[derive(Drop)]
pub(crate) struct Teller {
    pub(crate) pass: Pass<Steady>,
    pub(crate) shifts: Vec<Shift>,
    // Whether memory was refused.
    pub(crate) made: Result<(), AllocError>,
}

impl Teller {
    // The caller of the bank of a number that has this pass.
    pub(crate) fn new(
        alloc: Global,
        number: u64,
        caller: u64,
        pass: Pass<Steady>,
    ) -> Result<Teller, AllocError>
        requires { caller < 4 }
        ensures pass { IfOk result (λ t. t.pass ≡ pass) }
        ensures shifts { IfOk result (λ t. t.shifts.items ≡ first_shifts number caller 500) }
        ensures between { IfOk result (λ t. All IsBetweenUnits t.shifts.items) }
    {
        Ok(Teller {
            pass,
            shifts: shifts_of_caller(alloc, number, caller)?,
            made: Ok(()),
        })
    }

    // Makes its shifts.
    pub(crate) fn work<R: Wait, N: HeapName, I: Index>(&mut self, rt: &R, store: &Store<N, I>)
        requires pass { self.old.pass.ticket.table ≡ N.heap.table }
        requires layout { N.heap.opening.layout ≡ bank_layout }
        requires between { All IsBetweenUnits self.old.shifts.items }
        ensures { HasWorked N.heap self.old self.new }
    {
        self.made = make_shifts(rt, store, &mut self.pass, self.shifts.as_slice());
    }
}

// The passes of all callers, where none lacked memory.
pub(crate) fn passes_of(
    alloc: Global,
    tellers: Vec<Teller>,
) -> Result<Vec<Pass<Steady>>, AllocError>
    ensures passes { IfOk result (λ ps. ps.items ≡ map (λ t. t.pass) tellers.items) }
    ensures made { IfOk result (λ _. All (λ t. t.made ≡ Ok tt) tellers.items) }
{
    let mut passes = Vec::with_capacity(alloc, tellers.len())?;
    for teller in tellers {
        let Teller {
            pass,
            shifts: _,
            made,
        } = teller;
        made?;
        passes.push(pass)?;
    }
    Ok(passes)
}
