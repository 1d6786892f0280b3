// How an engine begins and ends.
ghost use Rattle.std.specs.Prelude.{◌≡◌, IfOk};
ghost use Rattle.machine_cases.specs.Working.{IsIdle, CanBeStopped};

use crate::engine::Engine;
use crate::line_fault::LineFault;
use advance::Advancer;
use heap::{Heap, Seats};
use heap_pass::Pass;
use mont_base::{FIRST_CLOCK, Fuel, Layout, Receipt, Words};
use slots::Region;
use std::alloc::Global;

/// An empty store with a caller that has this gate.
pub fn begin_with(alloc: Global, layout: Layout, gate: Fuel) -> Result<Engine, LineFault>
    ensures { IfOk result IsIdle }
{
    let (heap, seats) = Heap::fresh(alloc, layout, 1)?;
    let Seats {
        units: mut others,
        advancer,
        mut callers,
    } = seats;
    if others.is_empty() {
        return Err(LineFault::Unclear);
    }
    let seat = others.remove(0);
    let Some(ticket) = callers.pop() else {
        return Err(LineFault::Unclear);
    };
    let region = Region::fresh(alloc, layout, 0, seat)?;
    Ok(Engine {
        heap,
        region,
        others,
        advancer: Advancer::new(layout, advancer, FIRST_CLOCK),
        pass: Pass::new(alloc, ticket, gate),
    })
}

/// The words with which its heap stops, and the receipts of its caller.
pub fn stop(alloc: Global, engine: Engine) -> Result<(Words, Vec<Receipt>), LineFault>
    requires { CanBeStopped engine }
{
    let Engine {
        heap,
        region,
        others: mut units,
        advancer,
        pass,
    } = engine;
    let Pass {
        ticket,
        gate: _,
        receipts,
        apart: _,
    } = pass;
    units.insert(0, region.into_seat())?;
    let mut callers = Vec::new(alloc);
    callers.push(ticket)?;
    let seats = Seats {
        units,
        advancer: advancer.into_seat(),
        callers,
    };
    Ok((heap.stop(alloc, seats)?, receipts))
}
