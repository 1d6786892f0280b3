// Chains of rounds. In a round five callers work with a store on threads; it is stopped and judged,
// and then it crashes, and the next round goes on from what is recovered.
ghost use Rattle.std.specs.Prelude.{◌≡◌, vec_len, IfOk};

use crate::crashed_images::{contents_of, have_same_units, picked, total_of};
use crate::drawn_operations::Draws;
use crate::judged_stores::{expected, judge};
use crate::meetings::Meeting;
use crate::swept_stores::{CALLERS, Crashed, swept};
use crate::threaded_callers::{Caller, Part};
use index_kit::SortedIndex;
use mont_base::{Fuel, Kinds, Layout};
use std::alloc::{AllocError, Global};
use std::sync::Wait;
use std::test::Fail;
use std::thread::Threads;
use store_door::{with_fresh, with_recovered};
use store_stop::Stopped;

// How many of the images that a crash may leave of a round are tried.
const IMAGES: u64 = 64;

// A chain, and what its next round is to be.
#[derive(Drop)]
pub(crate) struct Chain {
    pub(crate) layout: Layout,
    // What the callers are there for.
    pub(crate) part: Part,
    // What the numbers of all maps have to come to, if to anything.
    pub(crate) total: Option<u64>,
    pub(crate) draws: Draws,
    // Whether any call was answered after the first round.
    is_answered: bool,
    // Whether any caller was cut there.
    is_cut: bool,
}

impl Chain {
    // A chain of stores of these units.
    pub(crate) fn new(letters: &[u8], slots: u64, part: Part, seed: u64) -> Result<Chain, Fail> {
        Ok(Chain {
            layout: Layout::new(Kinds::of_letters(letters)?, slots)?,
            part,
            total: None,
            draws: Draws::new(seed),
            is_answered: false,
            is_cut: false,
        })
    }

    // Counts what came of the callers of a round.
    fn count(&mut self, callers: &[Caller]) {
        self.is_answered |= callers.iter().any(|caller| !caller.answered.is_empty());
        self.is_cut |= callers.iter().any(|caller| caller.cut);
    }

    // Whether an image has what each caller knew to be durable, and the total.
    fn is_kept(&self, crashed: &Crashed, callers: &[Caller]) -> bool {
        let clock = crashed.image.clock();
        callers.iter().all(|caller| caller.clock <= clock)
            && (self.total.is_none() || self.total == Some(total_of(&crashed.contents)))
    }
}

// The first round, of a store that was never used. It gives what a crash leaves.
pub(crate) fn first_round(
    rt: &(impl Threads + Wait + Sync),
    alloc: Global,
    chain: &mut Chain,
) -> Result<Crashed, Fail> {
    let meeting = Meeting::new(CALLERS);
    let (gates, indexes, callers) = brought(alloc, chain, &meeting)?;
    let (stopped, callers) = with_fresh(rt, alloc, chain.layout, gates, indexes, callers)?;
    judged(rt, alloc, chain, &stopped, callers.as_slice())
}

// So many rounds more. In some of them a call is answered, and in some a caller is cut.
pub(crate) fn go_on(
    rt: &(impl Threads + Wait + Sync),
    alloc: Global,
    chain: &mut Chain,
    crashed: Crashed,
    rounds: u64,
) -> Result<(), Fail> {
    let mut crashed = crashed;
    for _ in 0..rounds {
        crashed = next_round(rt, alloc, chain, crashed)?;
    }
    if chain.is_answered && chain.is_cut {
        Ok(())
    } else {
        Err(Fail::new("no call was answered, or no caller was cut"))
    }
}

// A round of a store that is recovered from what a crash left.
fn next_round(
    rt: &(impl Threads + Wait + Sync),
    alloc: Global,
    chain: &mut Chain,
    crashed: Crashed,
) -> Result<Crashed, Fail> {
    let recovered = swept(rt, alloc, &mut chain.draws, crashed)?;
    let meeting = Meeting::new(CALLERS);
    let (gates, indexes, callers) = brought(alloc, chain, &meeting)?;
    let (stopped, callers) = with_recovered(rt, alloc, recovered, gates, indexes, callers)?;
    chain.count(callers.as_slice());
    judged(rt, alloc, chain, &stopped, callers.as_slice())
}

// What is brought to a round: gates, none of which cuts before its caller sets another, indexes and
// callers.
fn brought<'m>(
    alloc: Global,
    chain: &mut Chain,
    meeting: &'m Meeting,
) -> Result<(Vec<Fuel>, Vec<SortedIndex>, Vec<Caller<'m>>), AllocError>
    ensures gates { IfOk result (λ r. vec_len r.0 ≡ 5) }
    ensures callers { IfOk result (λ r. vec_len r.2 ≡ 5) }
{
    let gates = vec![in alloc; Fuel::endless(); 5]?;
    let indexes = indexes(alloc, chain.layout.maps())?;
    let callers = callers(alloc, meeting, chain.part, &mut chain.draws)?;
    Ok((gates, indexes, callers))
}

// An index for each of so many maps.
pub(crate) fn indexes(alloc: Global, maps: u64) -> Result<Vec<SortedIndex>, AllocError> {
    let mut indexes = Vec::new(alloc);
    for _map in 0..maps {
        indexes.push(SortedIndex::new(alloc))?;
    }
    Ok(indexes)
}

// Four callers, and the one beside them.
fn callers<'m>(
    alloc: Global,
    meeting: &'m Meeting,
    part: Part,
    draws: &mut Draws,
) -> Result<Vec<Caller<'m>>, AllocError>
    ensures { IfOk result (λ callers. vec_len callers ≡ 5) }
{
    Ok(vec![in alloc;
        Caller::new(alloc, meeting, part, draws.apart()),
        Caller::new(alloc, meeting, part, draws.apart()),
        Caller::new(alloc, meeting, part, draws.apart()),
        Caller::new(alloc, meeting, part, draws.apart()),
        Caller::new(alloc, meeting, part.of_last(), draws.apart()),
    ]?)
}

// Judges what a round left, and images that a crash may leave of it: that of the durable words,
// that of the current ones, and others that are drawn. It gives the last.
pub(crate) fn judged(
    rt: &(impl Threads + Sync),
    alloc: Global,
    chain: &mut Chain,
    stopped: &Stopped,
    callers: &[Caller],
) -> Result<Crashed, Fail> {
    judge(alloc, stopped, callers)?;
    let mut crashed = crash(rt, alloc, stopped, 0)?;
    let mut are_kept = chain.is_kept(&crashed, callers);
    for at in 1..IMAGES {
        let mask = if at == 1 {
            u64::MAX
        } else {
            chain.draws.number()
        };
        crashed = crash(rt, alloc, stopped, mask)?;
        are_kept &= chain.is_kept(&crashed, callers);
    }
    if are_kept {
        Ok(crashed)
    } else {
        Err(Fail::new("an image lacks what a caller knew to be durable, or has another total"))
    }
}

// The image that the mask picks, in which recovery finds what it has to.
fn crash(
    rt: &(impl Threads + Sync),
    alloc: Global,
    stopped: &Stopped,
    mask: u64,
) -> Result<Crashed, Fail> {
    let image = picked(alloc, &stopped.words, mask)?;
    let contents = expected(alloc, stopped, &image)?;
    if have_same_units(&contents_of(rt, alloc, &image)?, &contents) {
        Ok(Crashed { image, contents })
    } else {
        Err(Fail::new("an image holds no cut"))
    }
}
