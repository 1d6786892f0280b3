// A caller is held in the middle of a put: the clock may move once beyond its epoch, and another
// unit answers, while it is held.
ghost use Rattle.std.specs.Prelude.{◌≡◌, ℕ, false, true, vec_len, IfOk};
ghost use Rattle.store.specs.StoreCalls.{IsSamePass};

use crate::chained_rounds::{Chain, indexes, judged};
use crate::drawn_operations::Draws;
use crate::meetings::Meeting;
use crate::threaded_callers::{Caller, Part, call, first_put};
use advance::AdvanceRefusal;
use heap_pass::{HeapName, Pass};
use index_kit::Index;
use mont_base::{Cut, Gate, Op, Reply, Unit};
use std::alloc::{AllocError, Global};
use std::sync::Wait;
use std::test::Fail;
use std::thread::Threads;
use store::Store;
use store_door::{Work, with_fresh};

const QUEUE: Unit = 1;

// How often a caller looks for what it waits for, by one load each time.
const LOOKS: u64 = 1_000_000_000;

// How many steps of the put are made before it is held.
const STEPS: u64 = 5;

// A gate that never cuts. That of the put holds it once, before a step, until the other callers
// have come and are done.
#[derive(Drop)]
struct Holding<'m> {
    meeting: &'m Meeting,
    // How many steps are made before it holds. None where it doesn't hold.
    left: Option<u64>,
    // Whether the others were done in time.
    in_time: bool,
}

impl<'m> Gate for Holding<'m> {
    ghost cuts = { λ _. 0 };

    ghost endless = { λ _. true };

    ghost asked = { λ _ _ cut. cut ≡ false };

    fn step(&mut self) -> Result<(), Cut> {
        match self.left {
            Some(0) => {
                self.left = None;
                self.in_time = self.meeting.come(LOOKS) && self.meeting.is_left_alone(LOOKS);
            }
            Some(left) => self.left = Some(left - 1),
            None => {}
        }
        Ok(())
    }
}

impl<'m, R: Wait> Work<R, Holding<'m>> for Caller<'m> {
    ghost did = { λ _ _ _ _. Unit {0} };

    fn work<N: HeapName, I: Index>(
        &mut self,
        rt: &R,
        store: &Store<N, I>,
        pass: &mut Pass<Holding<'m>>,
    ) {
        match self.part {
            Part::Puts => put(rt, store, pass, self),
            _ => answer(rt, store, pass, self),
        }
    }
}

// Puts, and is held in it.
fn put<'m, R: Wait, N: HeapName, I: Index>(
    rt: &R,
    store: &Store<N, I>,
    pass: &mut Pass<Holding<'m>>,
    caller: &mut Caller,
)
    requires { pass.old.ticket.table ≡ N.heap.table }
    ensures { IsSamePass pass.old pass.new }
{
    call(rt, store, pass, caller, &first_put(0));
    caller.well = caller.well && pass.gate.in_time;
}

// Once the put is held, the one who ticks does so twice, and the other counts the queue.
fn answer<'m, R: Wait, N: HeapName, I: Index>(
    rt: &R,
    store: &Store<N, I>,
    pass: &mut Pass<Holding<'m>>,
    caller: &mut Caller,
)
    requires { pass.old.ticket.table ≡ N.heap.table }
    ensures { IsSamePass pass.old pass.new }
{
    caller.well = caller.meeting.come(LOOKS);
    match caller.part {
        Part::Ticks => tick_twice(rt, store, pass, caller),
        _ => call(rt, store, pass, caller, &Op::Len { unit: QUEUE }),
    }
    caller.meeting.leave();
}

// The clock moves to 3, and no further.
fn tick_twice<'m, R: Wait, N: HeapName, I: Index>(
    rt: &R,
    store: &Store<N, I>,
    pass: &mut Pass<Holding<'m>>,
    caller: &mut Caller,
)
    requires { pass.old.ticket.table ≡ N.heap.table }
    ensures { IsSamePass pass.old pass.new }
{
    let first = store.tick(rt, pass);
    let second = store.tick(rt, pass);
    let waits = AdvanceRefusal::NotYet {
        unit: 0,
        epoch: 2,
        cut: false,
    };
    caller.well = caller.well && first == Ok(3) && second == Err(waits);
}

// A gate that holds before a step, or that doesn't hold.
fn gate<'m>(meeting: &'m Meeting, left: Option<u64>) -> Holding<'m> {
    Holding {
        meeting,
        left,
        in_time: false,
    }
}

// The gates of the three callers: that of the first holds.
fn gates<'m>(alloc: Global, meeting: &'m Meeting) -> Result<Vec<Holding<'m>>, AllocError>
    ensures { IfOk result (λ gates. vec_len gates ≡ 3) }
{
    Ok(vec![in alloc;
        gate(meeting, Some(STEPS)),
        gate(meeting, None),
        gate(meeting, None),
    ]?)
}

// The one who puts, the one who ticks, and the one who counts.
fn callers<'m>(
    alloc: Global,
    meeting: &'m Meeting,
    draws: &mut Draws,
) -> Result<Vec<Caller<'m>>, AllocError>
    ensures { IfOk result (λ callers. vec_len callers ≡ 3) }
{
    Ok(vec![in alloc;
        Caller::new(alloc, meeting, Part::Puts, draws.apart()),
        Caller::new(alloc, meeting, Part::Ticks, draws.apart()),
        Caller::new(alloc, meeting, Part::Calls, draws.apart()),
    ]?)
}

// What is left of the store in which the put is held is well.
fn hold(rt: &(impl Threads + Wait + Sync), alloc: Global, chain: &mut Chain) -> Result<(), Fail> {
    let meeting = Meeting::new(3);
    let gates = gates(alloc, &meeting)?;
    let callers = callers(alloc, &meeting, &mut chain.draws)?;
    let indexes = indexes(alloc, 1)?;
    let (stopped, callers) = with_fresh(rt, alloc, chain.layout, gates, indexes, callers)?;
    judge_answers(callers.as_slice())?;
    let _crashed = judged(rt, alloc, chain, &stopped, callers.as_slice())?;
    Ok(())
}

// The put is answered at epoch 2, where there was nothing, and the queue has no items.
fn judge_answers(callers: &[Caller]) -> Result<(), Fail> {
    let [puts, _, counts] = callers else {
        return Err(Fail::new("other callers"));
    };
    let is_put = matches!(puts.answered.as_slice(), [put]
        if put.entry.epoch == 2 && put.entry.reply == Reply::Nothing);
    let is_counted = matches!(counts.answered.as_slice(), [count]
        if count.entry.reply == Reply::Count { number: 0 });
    if is_put && is_counted {
        Ok(())
    } else {
        Err(Fail::new("another answer"))
    }
}

#[test]
fn others_answer_while_a_put_is_held(rt: HostRuntime) -> Result<(), Fail> {
    let mut chain = Chain::new(b"mqg", 8, Part::Puts, 0)?;
    hold(&rt, rt.alloc(), &mut chain)
}
