// The callers of a store, each on a thread: what they do with it, until their gates cut, and what
// they have of it.
ghost use Rattle.std.specs.Prelude.{◌≡◌};
ghost use Rattle.store.specs.StoreCalls.{IsSamePass};

use crate::drawn_operations::Draws;
use crate::meetings::Meeting;
use heap_pass::{HeapName, Pass};
use index_kit::Index;
use mont_base::{CallRefusal, Epoch, Fuel, Gate, Op, Receipt, Sequence, Text};
use std::alloc::Global;
use std::sync::Wait;
use store::{ShiftRefusal, Store};
use store_door::Work;

// How often a caller looks for the others, by one load each time. Then it begins without them.
const LOOKS: u64 = 100_000;

// The keys between which amounts are shifted are the digits of the numbers below this.
const KEYS: u64 = 8;

// The number under each of these keys at first.
const FIRST: u64 = 50;

// What the numbers under all these keys come to.
pub(crate) const TOTAL: u64 = KEYS * FIRST;

// An amount is below this, so that a number is at times less.
const AMOUNTS: u64 = 40;

// What a caller is there for.
#[derive(Clone, Copy)]
pub(crate) enum Part {
    // It makes an operation in each turn, which is drawn.
    Calls,
    // In one turn of eight it ticks, in one it syncs, and in the others it makes such an operation.
    TakesTurns,
    // It puts the first number under two keys, and syncs after each.
    Puts,
    // It shifts amounts.
    Shifts,
    // It ticks until the others are done.
    Ticks,
}

impl Part {
    // What the last caller is there for, where the others are there for this.
    pub(crate) fn of_last(self) -> Part {
        match self {
            Part::TakesTurns => self,
            _ => Part::Ticks,
        }
    }

    // How many turns a caller takes, unless its gate cuts.
    fn turns(self) -> u64 {
        match self {
            Part::Calls => 5000,
            Part::TakesTurns => 100,
            Part::Puts => 2,
            Part::Shifts => 8,
            Part::Ticks => u64::MAX,
        }
    }
}

// A caller, and what it has of its calls.
#[derive(Drop)]
pub(crate) struct Caller<'m> {
    pub(crate) meeting: &'m Meeting,
    pub(crate) part: Part,
    draws: Draws,
    // What it was answered.
    pub(crate) answered: Sequence<Receipt>,
    // The durable clock that its last sync answered; 0 before.
    pub(crate) clock: Epoch,
    // Whether its gate cut.
    pub(crate) cut: bool,
    // Whether it was refused as one may be only where some caller was cut.
    pub(crate) refused: bool,
    // Whether nothing came that may never come.
    pub(crate) well: bool,
}

impl<'m> Caller<'m> {
    // A caller that made no call.
    pub(crate) fn new(alloc: Global, meeting: &'m Meeting, part: Part, draws: Draws) -> Caller<'m> {
        Caller {
            meeting,
            part,
            draws,
            answered: Sequence::new(alloc),
            clock: 0,
            cut: false,
            refused: false,
            well: true,
        }
    }

    // Its gate. That of a caller which takes turns or shifts cuts at times.
    fn gate(&mut self) -> Fuel {
        match self.part {
            Part::TakesTurns => self.draws.gate(2000),
            Part::Shifts => self.draws.gate(120),
            _ => Fuel::endless(),
        }
    }

    // Whether it ticks, and the others are done.
    fn is_done(&self) -> bool {
        matches!(self.part, Part::Ticks) && self.meeting.is_left_alone(1)
    }

    // The next operation of the caller of this number, on a store of so many maps.
    fn op(&mut self, number: u64, maps: u64) -> Op {
        match self.part {
            Part::Puts => first_put(number.wrapping_mul(2).wrapping_add(self.answered.len())),
            _ => self.draws.op(maps),
        }
    }

    // Keeps an answer, if there is memory for it.
    fn keep(&mut self, receipt: &Receipt) {
        self.well = is_kept(&mut self.answered, receipt) && self.well;
    }

    // It was told that all its answers are durable: they are two epochs before this clock.
    fn learn(&mut self, clock: Epoch) {
        let cut = clock.saturating_sub(2);
        let answered = self.answered.as_slice();
        self.well = answered.iter().all(|receipt| receipt.entry.epoch <= cut) && self.well;
        self.clock = clock;
    }

    // Keeps what a shift answered: both receipts in the order of their units.
    fn take_answer(&mut self, answer: Result<(Receipt, Receipt), ShiftRefusal>) {
        match answer {
            Ok((out, into)) => {
                self.well = self.well && out.entry.epoch == into.entry.epoch;
                let up = out.unit < into.unit;
                self.keep(if up { &out } else { &into });
                self.keep(if up { &into } else { &out });
            }
            Err(ShiftRefusal::Cut { first, .. }) => {
                self.refused = true;
                if let Some(receipt) = first {
                    self.keep(&receipt);
                }
            }
            Err(ShiftRefusal::Halted { .. }) => self.refused = true,
            Err(
                ShiftRefusal::SameUnit { .. }
                | ShiftRefusal::Short { .. }
                | ShiftRefusal::Full { .. },
            ) => {}
            Err(_) => self.well = false,
        }
    }
}

// The put of the first number under a key.
pub(crate) fn first_put(key: u64) -> Op {
    Op::Put {
        key: Text::of_number(key),
        value: Text::of_number(FIRST),
    }
}

// Adds an item to a list, if there is memory for it.
fn is_kept<T: Copy>(list: &mut Sequence<T>, item: &T) -> bool {
    list.push(*item).is_ok()
}

impl<'m, R: Wait> Work<R, Fuel> for Caller<'m> {
    ghost did = { λ _ _ _ _. Unit {0} };

    fn work<N: HeapName, I: Index>(&mut self, rt: &R, store: &Store<N, I>, pass: &mut Pass<Fuel>) {
        pass.gate = self.gate();
        self.meeting.come(LOOKS);
        take_turns(rt, store, pass, self);
        self.cut = pass.gate.cuts != 0;
        self.meeting.leave();
    }
}

// Takes its turns, until its gate cuts.
fn take_turns<R: Wait, N: HeapName, I: Index>(
    rt: &R,
    store: &Store<N, I>,
    pass: &mut Pass<Fuel>,
    caller: &mut Caller,
)
    requires { pass.old.ticket.table ≡ N.heap.table }
    ensures { IsSamePass pass.old pass.new }
{
    for _ in 0..caller.part.turns() {
        if pass.gate.cuts != 0 || caller.is_done() {
            return;
        }
        take_turn(rt, store, pass, caller);
    }
}

// One turn of its part.
fn take_turn<R: Wait, N: HeapName, I: Index>(
    rt: &R,
    store: &Store<N, I>,
    pass: &mut Pass<Fuel>,
    caller: &mut Caller,
)
    requires { pass.old.ticket.table ≡ N.heap.table }
    ensures { IsSamePass pass.old pass.new }
{
    match (caller.part, caller.draws.below(8)) {
        (Part::Ticks, _) | (Part::TakesTurns, 0) => {
            let _ticked = store.tick(rt, pass);
        }
        (Part::TakesTurns, 1) => sync(rt, store, pass, caller),
        (Part::Shifts, _) => shift(rt, store, pass, caller),
        (part, _) => {
            let op = caller.op(pass.ticket.number(), store.heap().layout().maps());
            call(rt, store, pass, caller, &op);
            if let Part::Puts = part {
                sync(rt, store, pass, caller);
            }
        }
    }
}

// Calls the store. Where a unit is full, it syncs instead.
pub(crate) fn call<R: Wait, N: HeapName, I: Index, G: Gate>(
    rt: &R,
    store: &Store<N, I>,
    pass: &mut Pass<G>,
    caller: &mut Caller,
    op: &Op,
)
    requires { pass.old.ticket.table ≡ N.heap.table }
    ensures { IsSamePass pass.old pass.new }
{
    if op.unit(store.heap().layout()).is_none() {
        caller.well = false;
        return;
    }
    match store.apply(rt, pass, op) {
        Ok(receipt) => caller.keep(&receipt),
        Err(CallRefusal::Full { .. }) => sync(rt, store, pass, caller),
        Err(CallRefusal::Halted { .. } | CallRefusal::Cut { .. }) => caller.refused = true,
        Err(CallRefusal::CountEnd { .. } | CallRefusal::Memory) => caller.well = false,
    }
}

// Waits until all its answers are durable.
fn sync<R: Wait, N: HeapName, I: Index, G: Gate>(
    rt: &R,
    store: &Store<N, I>,
    pass: &mut Pass<G>,
    caller: &mut Caller,
)
    requires { pass.old.ticket.table ≡ N.heap.table }
    ensures { IsSamePass pass.old pass.new }
{
    match store.sync(rt, pass) {
        Ok(clock) => caller.learn(clock),
        Err(_) => caller.refused = true,
    }
}

// Shifts an amount between two keys, all of which are drawn.
fn shift<R: Wait, N: HeapName, I: Index>(
    rt: &R,
    store: &Store<N, I>,
    pass: &mut Pass<Fuel>,
    caller: &mut Caller,
)
    requires { pass.old.ticket.table ≡ N.heap.table }
    ensures { IsSamePass pass.old pass.new }
{
    let draws = &mut caller.draws;
    let (from, to, amount) = (draws.text(KEYS), draws.text(KEYS), draws.below(AMOUNTS));
    if store.heap().layout().maps() == 0 {
        caller.well = false;
        return;
    }
    caller.take_answer(store.shift(rt, pass, from, to, amount));
}
