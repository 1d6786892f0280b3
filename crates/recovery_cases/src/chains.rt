// Chains of rounds: a store is worked on and crashes, recovery opens it, and its sweep is cut and
// crashes too, until one goes to its end and the next round begins.
//
// The part `chains` has the kinds of the units, the slots of each, how many chains there are and
// how many rounds each has. A chain is drawn from its number. What recovery finds each time is held
// against what the plain structures come to by the operations that the crashes have left.
ghost use Rattle.std.specs.Prelude.{◌≡◌, ◌≤◌, false, IfOk, IfSome};
ghost use Rattle.recovery_cases.specs.Leftovers.{HoldsSame};

use crate::drawn_images::Draws;
use crate::found_text::{Found, found_by};
use crate::leftovers::left_by;
use crate::plain_store::PlainStore;
use case_file::Unanswered;
use case_image::number_in;
use mont_base::{Epoch, FIELDS, FIRST_CLOCK, Kinds, Layout};
use mont_image::Image;
use std::alloc::Global;
use std::str;
use std::thread::Threads;

// What a part `chains` tells.
#[derive(Clone, Copy)]
struct Chains {
    layout: Layout,
    many: u64,
    rounds: u64,
}

impl Chains {
    fn of_part(part: &[u8]) -> Option<Chains> {
        let line = str::from_utf8(part).ok()?;
        let mut words = line.split_ascii_whitespace();
        let kinds = Kinds::of_letters(words.next()?.as_bytes()).ok()?;
        let slots = number_in(words.next()?)?;
        Some(Chains {
            layout: Layout::new(kinds, slots).ok()?,
            many: number_in(words.next()?)?,
            rounds: number_in(words.next()?)?,
        })
    }
}

/// Whether recovery finds in all chains what the plain structures come to; else the first chain
/// and its first round where it doesn't.
pub fn follow_chains(
    rt: &(impl Threads + Sync),
    alloc: Global,
    part: &[u8],
) -> Result<Vec<u8>, Unanswered> {
    let Some(chains) = Chains::of_part(part) else {
        return Err(Unanswered::Unclear { head: "chains" });
    };
    let Chains { many, rounds, .. } = chains;
    for seed in 0..many {
        if let Some(round) = first_difference(rt, alloc, &chains, seed)? {
            return Ok(format!(in alloc; "chain {seed} differs in round {round}\n")?.into_bytes());
        }
    }
    Ok(format!(in alloc; "{many} chains of {rounds} rounds\n")?.into_bytes())
}

// The first round of a chain in which recovery finds something else.
fn first_difference(
    rt: &(impl Threads + Sync),
    alloc: Global,
    chains: &Chains,
    seed: u64,
) -> Result<Option<u64>, Unanswered> {
    let mut draws = Draws::of_seed(seed);
    let mut store = PlainStore::fresh(alloc, chains.layout)?;
    let mut from = FIRST_CLOCK;
    for round in 0..chains.rounds {
        let clock = from.saturating_add(draws.below(5));
        store.run(alloc, &mut draws, from, clock)?;
        if !goes_on(rt, alloc, &mut draws, &mut store, clock)? {
            return Ok(Some(round));
        }
        from = clock;
    }
    Ok(None)
}

// Lets a store crash at a clock, and takes the image over that is left after its sweeps, if
// recovery finds each time what the plain structures come to.
fn goes_on(
    rt: &(impl Threads + Sync),
    alloc: Global,
    draws: &mut Draws,
    store: &mut PlainStore,
    clock: Epoch,
) -> Result<bool, Unanswered> {
    match image_behind(rt, alloc, draws, store, clock)? {
        Some(image) => {
            store.take_image(alloc, &image)?;
            Ok(true)
        }
        None => Ok(false),
    }
}

// The image that is left.
fn image_behind(
    rt: &(impl Threads + Sync),
    alloc: Global,
    draws: &mut Draws,
    store: &PlainStore,
    clock: Epoch,
) -> Result<Option<Image>, Unanswered> {
    let contents = store.contents_text(alloc, clock)?;
    let image = store.crash(alloc, clock, draws.number())?;
    swept(rt, alloc, draws, image, contents.as_slice())
}

// The image after a sweep that went to its end, and before that some that were cut, if recovery
// finds these contents each time.
fn swept(
    rt: &(impl Threads + Sync),
    alloc: Global,
    draws: &mut Draws,
    image: Image,
    contents: &[u8],
) -> Result<Option<Image>, Unanswered>
    requires { image.old ≡ false }
    ensures { IfOk result (λ r. IfSome r (λ left. HoldsSame image left)) }
{
    let mut left = image;
    for _ in 0..draws.below(3) {
        match behind_cut(rt, alloc, draws, &left, contents)? {
            Some(image) => left = image,
            None => return Ok(None),
        }
    }
    behind_whole(rt, alloc, draws, &left, contents)
}

// The image after a sweep that may be cut, if recovery finds these contents before that and no
// more slots are lost after it.
fn behind_cut(
    rt: &(impl Threads + Sync),
    alloc: Global,
    draws: &mut Draws,
    image: &Image,
    contents: &[u8],
) -> Result<Option<Image>, Unanswered>
    requires { image.now.old ≡ false }
    ensures { IfOk result (λ r. IfSome r (λ left. HoldsSame image.now left)) }
{
    if !holds(rt, alloc, draws, image, contents)? {
        return Ok(None);
    }
    let lost = lost_in(image);
    let steps = draws.below(lost.saturating_mul(2).saturating_add(2));
    let (_cut, left) = left_by(rt, alloc, image, steps, draws.number())?;
    let fewer = lost_in(&left) <= lost;
    Ok(fewer.then_some(left))
}

// The image after a whole sweep, if recovery finds these contents before that and no slot is lost
// after it.
fn behind_whole(
    rt: &(impl Threads + Sync),
    alloc: Global,
    draws: &mut Draws,
    image: &Image,
    contents: &[u8],
) -> Result<Option<Image>, Unanswered>
    requires { image.now.old ≡ false }
    ensures { IfOk result (λ r. IfSome r (λ left. HoldsSame image.now left)) }
{
    if !holds(rt, alloc, draws, image, contents)? {
        return Ok(None);
    }
    let (cut, left) = left_by(rt, alloc, image, u64::MAX, draws.number())?;
    let whole = !cut && lost_in(&left) == 0;
    Ok(whole.then_some(left))
}

// Whether recovery finds these contents, and how many slots are lost.
fn holds(
    rt: &(impl Threads + Sync),
    alloc: Global,
    draws: &mut Draws,
    image: &Image,
    contents: &[u8],
) -> Result<bool, Unanswered>
    requires { image.now.old ≡ false }
{
    let workers = 1 + draws.number() % 64;
    match found_by(rt, alloc, image, workers)? {
        Found::Accepted {
            lost,
            contents: found,
        } => Ok(lost == lost_in(image) && found.as_slice() == contents),
        Found::Faulty { .. } => Ok(false),
    }
}

// How many slots of an image are beyond the cut.
fn lost_in(image: &Image) -> u64 {
    let cut = image.clock().saturating_sub(2);
    let mut lost = 0u64;
    if let Some((_clock, slots)) = image.words.as_slice().split_first() {
        for words in slots.chunks(FIELDS) {
            if words.first().is_some_and(|epoch| *epoch > cut) {
                lost = lost.saturating_add(1);
            }
        }
    }
    lost
}
