// The images that a crash may leave of a store's words, and what recovery finds in them.
ghost use Rattle.std.specs.Prelude.{◌≡◌, ◌≤◌, false, IsTrue, IfOk};
ghost use Rattle.mont_image.specs.Picking.{HasClock};

use crate::script_fault::ScriptFault;
use mont_base::{FIRST_CLOCK, LAST, Sequence, Words};
use mont_image::{Image, pick};
use recover::{Recovered, recover};
use std::alloc::Global;
use std::thread::Threads;

// How many threads read an image.
const WORKERS: u64 = 4;

/// The store of the image that a mask picks, with so many callers.
pub fn store_in(
    rt: &(impl Threads + Sync),
    alloc: Global,
    words: &Words,
    mask: u64,
    callers: u64,
) -> Result<Recovered, ScriptFault> {
    let image = picked(alloc, words, mask)?;
    opened(rt, alloc, &image, callers)
}

// The image that a mask picks.
fn picked(alloc: Global, words: &Words, mask: u64) -> Result<Image, ScriptFault>
    ensures { IfOk result (λ image. image.old ≡ false) }
{
    let size = words.layout.words();
    if words.cur.len() != size || words.dur.len() != size {
        return Err(ScriptFault::Image);
    }
    if !has_clock(&words.cur) || !has_clock(&words.dur) {
        return Err(ScriptFault::Image);
    }
    Ok(pick(alloc, words, mask)?)
}

// Whether the first word is a clock.
fn has_clock(words: &Sequence<u64>) -> bool
    ensures { IsTrue result → HasClock words.now }
{
    let words = words.as_slice();
    !words.is_empty() && FIRST_CLOCK <= words[0] && words[0] <= LAST
}

/// The store of an image, with so many callers.
pub fn opened(
    rt: &(impl Threads + Sync),
    alloc: Global,
    image: &Image,
    callers: u64,
) -> Result<Recovered, ScriptFault>
    requires { image.now.old ≡ false }
{
    if callers < 1 || callers > 8 {
        return Err(ScriptFault::Setting);
    }
    match recover(rt, alloc, image, WORKERS, callers) {
        Ok(store) => Ok(store),
        Err(_refusal) => Err(ScriptFault::Image),
    }
}
