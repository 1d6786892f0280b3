// A store that is worked on and stopped, whichever way it was opened.
ghost use Rattle.std.specs.Prelude.{◌≡◌, ◌≤◌, [], map, vec_len, vec_capacity, All, IfOk};
ghost use Rattle.heap.specs.Stops.{AreCallersOf, IsSeatOfCaller};
ghost use Rattle.heap_pass.specs.Kept.{IsWhole};
ghost use Rattle.store.specs.Store.{AreAllCallers};

use crate::scene::Scene;
use crate::script_fault::ScriptFault;
use crate::scripted_caller::Caller;
use crate::works_done::do_works;
use heap_pass::{HeapName, Pass};
use index_kit::Index;
use mont_base::Fuel;
use std::alloc::Global;
use std::sync::Wait;
use store::Store;
use store_stop::are_whole;

/// Lets the callers of these passes do what each line up to the stop says, and stops the store.
pub fn work_and_stop<R: Wait, N: HeapName, I: Index>(
    rt: &R,
    scene: &mut Scene<'_>,
    store: Store<N, I>,
    passes: Vec<Pass<Fuel>>,
) -> Result<(), ScriptFault>
    requires { AreAllCallers N.heap (map (λ p. p.ticket) passes.items) }
{
    let passes = worked(rt, scene, &store, passes)?;
    scene.left = Some(store.stop(scene.alloc, passes)?);
    Ok(())
}

// Lets the callers of these passes do what each line up to the stop says.
fn worked<R: Wait, N: HeapName, I: Index>(
    rt: &R,
    scene: &mut Scene<'_>,
    store: &Store<N, I>,
    passes: Vec<Pass<Fuel>>,
) -> Result<Vec<Pass<Fuel>>, ScriptFault>
    requires { AreAllCallers N.heap (map (λ p. p.ticket) passes.items) }
    ensures all { IfOk result (λ passes. AreAllCallers N.heap
        (map (λ p. p.ticket) passes.items)) }
    ensures whole { IfOk result (λ passes. All (λ p. IsWhole p.ticket p.receipts.items)
        passes.items) }
{
    let room = Vec::with_capacity(scene.alloc, passes.len())?;
    let mut callers = callers_of(passes, room);
    do_works(rt, scene, store, callers.as_mut_slice())?;
    let passes = passes_of(scene.alloc, callers)?;
    if are_whole(passes.as_slice()) {
        Ok(passes)
    } else {
        Err(ScriptFault::Caller)
    }
}

// The callers of these passes, in their order, in a vector that has room for them.
fn callers_of<N: HeapName>(passes: Vec<Pass<Fuel>>, mut callers: Vec<Caller<N>>) -> Vec<Caller<N>>
    requires passes { AreCallersOf N.heap (map (λ p. p.ticket) passes.items) }
    requires none { callers.items ≡ [] }
    requires room { vec_len passes ≤ vec_capacity callers }
    ensures { vec_len result ≡ vec_len passes }
{
    for pass in passes {
        callers.push_reserved(Caller::new(pass));
    }
    callers
}

// The passes of callers that stand by their numbers.
fn passes_of<N: HeapName>(
    alloc: Global,
    callers: Vec<Caller<N>>,
) -> Result<Vec<Pass<Fuel>>, ScriptFault>
    requires { vec_len callers ≡ N.heap.opening.callers }
    ensures { IfOk result (λ passes. AreAllCallers N.heap (map (λ p. p.ticket) passes.items)) }
{
    let mut passes = Vec::new(alloc);
    for caller in callers {
        if caller.number() != passes.len() as u64 {
            return Err(ScriptFault::Caller);
        }
        passes.push(caller.into_pass())?;
    }
    Ok(passes)
}
