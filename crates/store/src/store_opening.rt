// A store put together: its structures behind their locks, and the passes of its callers.
ghost use Rattle.std.specs.Prelude.{◌≡◌, ◌≢◌, ◌+◌, ◌<◌, [], ◌∷◌, All, length, map, vec_len, Some, IfOk, IfErr};
ghost use Rattle.std.specs.FinMap as finite;
ghost use Rattle.std.specs.Option.{option_map};
ghost use Rattle.std.specs.Vec.Iter.{into_iter_items};
ghost use Rattle.plain.specs.States.{states_of};
ghost use Rattle.heap_pass.specs.OfHeap.{IsAdvancerOf};
ghost use Rattle.store_stop.specs.Headline.{IsBaseOf};
ghost use Rattle.store.specs.FreshStore.{AreUnitsFrom};
ghost use Rattle.store.specs.declared.open_refusal.OpenRefusal.TheVariants as refusals;

use crate::open_refusal::OpenRefusal;
use crate::store::Store;
use crate::unit_at::UnitAt;
use crate::unit_structure::Structure;
use advance::Advancer;
use heap::{Heap, Ticket};
use heap_pass::{Apart, HeapName, Named, Pass};
use index_kit::Index;
use mont_base::{Epoch, Gate, Unit};
use plain::Contents;
use std::alloc::{AllocError, Global};
use std::sync::Mutex;
use std::vec::IntoIter;

impl<N: HeapName, I: Index> Store<N, I> {
    // The store of these structures, each behind a lock of its own. Its heap opened with this clock
    // and these contents.
    pub(crate) fn of_structures(
        heap: Heap,
        structures: Vec<Box<Structure<I>>>,
        advancer: Advancer,
        base_clock: Epoch,
        base: Contents,
    ) -> Store<N, I>
        requires named { heap ≡ N.heap }
        requires units { AreUnitsFrom N.heap 0 structures.items }
        requires advancer { IsAdvancerOf N.heap advancer }
        requires base { IsBaseOf N.heap.opening base_clock (states_of base) }
    {
        let mut structures = structures.into_iter();
        Store {
            heap,
            base_clock: Apart::new(base_clock),
            unit_0: next_unit(&mut structures),
            unit_1: next_unit(&mut structures),
            unit_2: next_unit(&mut structures),
            unit_3: next_unit(&mut structures),
            unit_4: next_unit(&mut structures),
            unit_5: next_unit(&mut structures),
            unit_6: next_unit(&mut structures),
            unit_7: next_unit(&mut structures),
            unit_8: next_unit(&mut structures),
            unit_9: next_unit(&mut structures),
            unit_10: next_unit(&mut structures),
            unit_11: next_unit(&mut structures),
            unit_12: next_unit(&mut structures),
            unit_13: next_unit(&mut structures),
            unit_14: next_unit(&mut structures),
            unit_15: next_unit(&mut structures),
            advancer: Mutex::new(Named::new(advancer)),
            base,
        }
    }
}

// The passes of callers that weren't answered yet, each with its gate.
pub(crate) fn first_passes<G: Gate + Drop>(
    alloc: Global,
    callers: Vec<Ticket>,
    gates: Vec<G>,
) -> Result<Vec<Pass<G>>, AllocError>
    requires as_many { vec_len gates ≡ vec_len callers }
    ensures tickets { IfOk result (λ ps. map (λ p. p.ticket) ps.items ≡ callers.items) }
    ensures empty { IfOk result (λ ps. All (λ p. p.receipts.items ≡ []) ps.items) }
    ensures gates { IfOk result (λ ps. map (λ p. p.gate) ps.items ≡ gates.items) }
{
    let mut gates = gates.into_iter();
    let mut passes = Vec::with_capacity(alloc, callers.len())?;
    for ticket in callers {
        let gate = next_gate(&mut gates);
        passes.push_reserved(Pass::new(alloc, ticket, gate));
    }
    Ok(passes)
}

// The next of the gates. There is one.
fn next_gate<G: Gate>(gates: &mut IntoIter<G, Global>) -> G
    requires { 0 < length (into_iter_items gates.old) }
    ensures { into_iter_items gates.old ≡ result ∷ into_iter_items gates.new }
{
    let Some(gate) = gates.next() else {
        unreachable!()
    };
    gate
}

// The structure in a box, so that a lock is as large whatever the kind of index is.
pub(crate) fn boxed<I: Index>(
    alloc: Global,
    structure: Structure<I>,
) -> Result<Box<Structure<I>>, AllocError>
    ensures { IfOk result (λ b. b.value ≡ structure) }
{
    Ok(Box::new(alloc, structure)?)
}

// The lock of the unit with this number, which has the next of the structures, if there is one.
fn next_unit<const UNIT: u64, N: HeapName, I: Index>(
    structures: &mut IntoIter<Box<Structure<I>>, Global>,
) -> Apart<Mutex<UnitAt<UNIT, N, I>>>
    requires { AreUnitsFrom N.heap UNIT (into_iter_items structures.old) }
    ensures { AreUnitsFrom N.heap (UNIT + 1) (into_iter_items structures.new) }
{
    Apart::new(Mutex::new(UnitAt::new(structures.next())))
}

// The box of a map unit, if it has one that is empty.
pub(crate) fn empty_box<I: Index>(unit: Unit, found: Option<I>) -> Result<I, OpenRefusal>
    ensures empty { IfOk result (λ index. (found ≡ Some index)
        × (finite.len (I.places index) ≡ 0)) }
    ensures lacks { IfErr result (λ why.
        (why ≡ refusals.Index unit (option_map (λ b. finite.len (I.places b)) found))
        × (option_map (λ b. finite.len (I.places b)) found ≢ Some 0)) }
{
    let Some(index) = found else {
        return Err(OpenRefusal::Index { unit, len: None });
    };
    let keys = index.len();
    if keys > 0 {
        return Err(OpenRefusal::Index {
            unit,
            len: Some(keys),
        });
    }
    Ok(index)
}
