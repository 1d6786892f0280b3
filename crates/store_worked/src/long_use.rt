// A store that one caller uses for long: what it keeps doesn't grow with the calls.
ghost use Rattle.std.specs.Prelude.{◌≡◌, map, vec_len, IsSome};
ghost use Rattle.mont_base.specs.State.{unit_of_op};
ghost use Rattle.store.specs.FreshStore.{IsFreshHeap};
ghost use Rattle.store.specs.Store.{AreAllCallers};
ghost use Rattle.store_worked.specs.SameCallers.{IsSameCaller};

use crate::chained_rounds::indexes;
use crate::crashed_images::{contents_of, picked};
use crate::drawn_operations::Draws;
use heap::{Heap, Seats};
use heap_pass::{HeapName, Pass};
use index_kit::SortedIndex;
use mont_base::{CallRefusal, Kinds, Layout, Op, Receipt, Steady, Text, Words};
use plain::{Contents, MapState, UnitState};
use std::alloc::Global;
use std::marker::Brand;
use std::sync::Wait;
use std::test::Fail;
use std::thread::Threads;
use store::{Store, StoreRefusal};

// How many calls are made. A caller forgets its receipts after each thousand.
const CALLS: u64 = 200_000;

const THOUSAND: u64 = 1000;

// A pass has room for so many receipts at most.
const MOST_ROOM: usize = 2000;

const SLOTS: u64 = 64;

const KEYS: u64 = 16;

// What the caller puts, and where it has to be in the end.
#[derive(Drop)]
struct Use {
    draws: Draws,
    // The map as it has to be.
    map: MapState,
    // Whether each answer was as the map has it, and the receipts kept little room.
    well: bool,
}

impl Use {
    // A put or a look-up of a key.
    fn op(&mut self) -> Op {
        let key = self.draws.text(KEYS);
        match self.draws.below(2) {
            0 => Op::Get { key },
            _ => Op::Put {
                key,
                value: Text::of_number(self.draws.number()),
            },
        }
    }
}

// Opens a store, uses it for long, and closes it.
fn used<N: HeapName>(
    rt: &impl Wait,
    alloc: Global,
    heap: Heap,
    seats: Seats,
    gates: Vec<Steady>,
    indexes: Vec<SortedIndex>,
    by: &mut Use,
) -> Result<Words, StoreRefusal>
    requires named { heap ≡ N.heap }
    requires opens { IsFreshHeap N.heap seats.units.items seats.advancer seats.callers.items }
    requires one { N.heap.opening.callers ≡ 1 }
    requires gates { vec_len gates ≡ 1 }
{
    let (store, mut passes) = Store::<N, SortedIndex>::fresh(alloc, heap, seats, gates, indexes)?;
    let went = use_first(rt, &store, passes.as_mut_slice(), by);
    let words = store.close(alloc, passes)?;
    went?;
    Ok(words)
}

// Lets the only caller use the store.
fn use_first<N: HeapName>(
    rt: &impl Wait,
    store: &Store<N, SortedIndex>,
    passes: &mut [Pass<Steady>],
    by: &mut Use,
) -> Result<(), StoreRefusal>
    requires { AreAllCallers N.heap (map (λ p. p.ticket) passes.old) }
    ensures { AreAllCallers N.heap (map (λ p. p.ticket) passes.new) }
{
    match passes {
        [pass] => use_long(rt, store, pass, by),
        _ => Ok(()),
    }
}

// Makes all calls, and forgets the receipts after each thousand; then it syncs.
fn use_long<N: HeapName>(
    rt: &impl Wait,
    store: &Store<N, SortedIndex>,
    pass: &mut Pass<Steady>,
    by: &mut Use,
) -> Result<(), StoreRefusal>
    requires { pass.old.ticket.table ≡ N.heap.table }
    ensures { IsSameCaller pass.old.ticket pass.new.ticket }
{
    for number in 1..=CALLS {
        use_once(rt, store, pass, by)?;
        if number % THOUSAND == 0 {
            by.well &= pass.receipts.capacity() <= MOST_ROOM;
            pass.forget();
        }
    }
    store.sync(rt, pass)?;
    Ok(())
}

// Makes a call, whose reply has to be that of the map.
fn use_once<N: HeapName>(
    rt: &impl Wait,
    store: &Store<N, SortedIndex>,
    pass: &mut Pass<Steady>,
    by: &mut Use,
) -> Result<(), StoreRefusal>
    requires { pass.old.ticket.table ≡ N.heap.table }
    ensures { IsSameCaller pass.old.ticket pass.new.ticket }
{
    let op = by.op();
    if op.unit(store.heap().layout()).is_none() {
        by.well = false;
        return Ok(());
    }
    let receipt = call(rt, store, pass, &op)?;
    by.well &= receipt.entry.reply == by.map.apply(&op)?;
    Ok(())
}

// Calls the store, after a sync where it is full.
fn call<N: HeapName>(
    rt: &impl Wait,
    store: &Store<N, SortedIndex>,
    pass: &mut Pass<Steady>,
    op: &Op,
) -> Result<Receipt, StoreRefusal>
    requires pass { pass.old.ticket.table ≡ N.heap.table }
    requires unit { IsSome (unit_of_op N.heap.opening.layout op.now) }
    ensures { IsSameCaller pass.old.ticket pass.new.ticket }
{
    match store.apply(rt, pass, op) {
        Err(CallRefusal::Full { .. }) => {
            store.sync(rt, pass)?;
            Ok(store.apply(rt, pass, op)?)
        }
        answer => Ok(answer?),
    }
}

// The words that a long use leaves.
fn words_left(rt: &impl Wait, alloc: Global, by: &mut Use) -> Result<Words, Fail> {
    let layout = Layout::new(Kinds::of_letters(b"m")?, SLOTS)?;
    let gates = vec![in alloc; Steady]?;
    let indexes = indexes(alloc, 1)?;
    let (heap, seats) = Heap::fresh(alloc, layout, 1)?;
    Ok(used::<Brand>(rt, alloc, heap, seats, gates, indexes, by)?)
}

// The use went well, and the durable words hold its map.
fn are_as_used(
    rt: &(impl Threads + Sync),
    alloc: Global,
    words: &Words,
    by: &Use,
) -> Result<(), Fail> {
    let image = picked(alloc, words, 0)?;
    let found = contents_of(rt, alloc, &image)?;
    if by.well && is_first(&found, &by.map) {
        Ok(())
    } else {
        Err(Fail::new("another reply, receipts that grow, or another map that is durable"))
    }
}

// Whether the first unit is this map.
fn is_first(found: &Contents, map: &MapState) -> bool {
    match found.units.get(0) {
        Some(UnitState::Map { state }) => state.has_same_pairs(map),
        _ => false,
    }
}

// The words have the room of the layout.
fn has_no_more_room(layout: Layout, words: Words) -> Result<(), Fail> {
    let size = layout.words() as usize;
    if words.cur.into_vec().capacity() > size || words.dur.into_vec().capacity() > size {
        return Err(Fail::new("words that grow"));
    }
    Ok(())
}

#[test]
fn a_long_use_takes_no_more_room(rt: HostRuntime) -> Result<(), Fail> {
    let alloc = rt.alloc();
    let mut by = Use {
        draws: Draws::new(0),
        map: MapState::new(alloc),
        well: true,
    };
    let words = words_left(&rt, alloc, &mut by)?;
    are_as_used(&rt, alloc, &words, &by)?;
    has_no_more_room(words.layout, words)
}
