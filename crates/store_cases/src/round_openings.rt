// How a store is opened: as one that was never used, or from an image.
ghost use Rattle.std.specs.Prelude.{◌≡◌, ◌≤◌, true, vec_len, IfOk};
ghost use Rattle.store_cases.specs.FreshHeaps.{IsNewHeap};

use crate::empty_box::{EmptyBox, boxes_of};
use crate::round_ends::work_and_stop;
use crate::scene::Scene;
use crate::script_fault::ScriptFault;
use heap::{Heap, Seats};
use heap_pass::HeapName;
use index_kit::Index;
use job_text::layout;
use mont_base::{Fuel, Layout, Steady};
use plain::Contents;
use recover::Recovered;
use std::alloc::{AllocError, Global};
use std::marker::Brand;
use std::sync::Wait;
use store::Store;

/// Works on a store of these kinds and slots that was never used, and stops it.
pub fn play_fresh<R: Wait, I: EmptyBox>(
    rt: &R,
    scene: &mut Scene<'_>,
    kinds: &str,
    slots: &str,
) -> Result<(), ScriptFault> {
    let (alloc, callers) = (scene.alloc, scene.callers);
    let Some(layout) = layout(kinds.as_bytes(), slots.as_bytes()) else {
        return Err(ScriptFault::Setting);
    };
    if callers < 1 || callers > 8 {
        return Err(ScriptFault::Setting);
    }
    scene.plain = Contents::empty(alloc, layout)?.units.into_vec();
    let (gates, boxes) = outfit::<I>(scene, callers)?;
    let (heap, seats) = new_heap(alloc, layout, callers)?;
    play_on_fresh::<_, _, Brand>(rt, scene, heap, seats, gates, boxes)
}

/// Sweeps what is left to sweep of a store that goes on from an image, works on it, and stops it.
pub fn play_recovered<R: Wait, I: EmptyBox>(
    rt: &R,
    scene: &mut Scene<'_>,
    mut recovered: Recovered,
) -> Result<(), ScriptFault> {
    let (gates, boxes) = outfit::<I>(scene, recovered.callers())?;
    if recovered.sweep(&mut Steady).is_err() {
        return Err(ScriptFault::Image);
    }
    play_on_recovered::<_, _, Brand>(rt, scene, recovered, gates, boxes)
}

// What a store with so many callers is given.
fn outfit<I: EmptyBox>(scene: &Scene<'_>, callers: u64) -> Result<(Vec<Fuel>, Vec<I>), AllocError>
    ensures { IfOk result (λ r. vec_len r.0 ≡ callers) }
{
    let gates = endless_gates(scene.alloc, callers)?;
    Ok((gates, boxes_of::<I>(scene.alloc, scene.run.rooms)?))
}

// A heap of which no step was made.
fn new_heap(alloc: Global, layout: Layout, callers: u64) -> Result<(Heap, Seats), AllocError>
    requires callers { (1 ≤ callers) × (callers ≤ 8) }
    ensures { IfOk result (λ r. IsNewHeap callers r.0 r.1.units.items r.1.advancer
        r.1.callers.items) }
{
    Heap::fresh(alloc, layout, callers)
}

// Works on the heap that N names, of which no step was made.
fn play_on_fresh<R: Wait, I: Index, N: HeapName>(
    rt: &R,
    scene: &mut Scene<'_>,
    heap: Heap,
    seats: Seats,
    gates: Vec<Fuel>,
    boxes: Vec<I>,
) -> Result<(), ScriptFault>
    requires named { heap ≡ N.heap }
    requires opens { IsNewHeap (vec_len gates) N.heap seats.units.items seats.advancer
        seats.callers.items }
{
    let (store, passes) = Store::<N, I>::fresh(scene.alloc, heap, seats, gates, boxes)?;
    work_and_stop(rt, scene, store, passes)
}

// Works on the heap that N names, which was opened from an image.
fn play_on_recovered<R: Wait, I: Index, N: HeapName>(
    rt: &R,
    scene: &mut Scene<'_>,
    recovered: Recovered,
    gates: Vec<Fuel>,
    boxes: Vec<I>,
) -> Result<(), ScriptFault>
    requires named { recovered.heap ≡ N.heap }
    requires swept { recovered.swept ≡ true }
    requires gates { vec_len gates ≡ N.heap.opening.callers }
{
    let (store, passes) = Store::<N, I>::resume(scene.alloc, recovered, gates, boxes)?;
    work_and_stop(rt, scene, store, passes)
}

// A gate for each caller, which never cuts it.
fn endless_gates(alloc: Global, callers: u64) -> Result<Vec<Fuel>, AllocError>
    ensures { IfOk result (λ gates. vec_len gates ≡ callers) }
{
    let mut gates = Vec::new(alloc);
    for _caller in 0..callers {
        gates.push(Fuel::endless())?;
    }
    Ok(gates)
}
