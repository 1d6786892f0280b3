// Images that a crash may leave of a store's words, and what they hold.
ghost use Rattle.std.specs.Prelude.{IsTrue};
ghost use Rattle.mont_image.specs.Picking.{HasClock};

use mont_base::{FIRST_CLOCK, LAST, Sequence, Text, Words};
use mont_image::{Image, pick};
use plain::{Contents, MapState, UnitState, same_state};
use recover::find_units;
use std::alloc::Global;
use std::test::Fail;
use std::thread::Threads;

// The image that the mask picks.
pub(crate) fn picked(alloc: Global, words: &Words, mask: u64) -> Result<Image, Fail> {
    let size = words.layout.words();
    if words.cur.len() != size || words.dur.len() != size {
        return Err(Fail::new("another size"));
    }
    if !has_clock(&words.cur) || !has_clock(&words.dur) {
        return Err(Fail::new("no clock"));
    }
    Ok(pick(alloc, words, mask)?)
}

fn has_clock(words: &Sequence<u64>) -> bool
    ensures { IsTrue result → HasClock words.now }
{
    let words = words.as_slice();
    !words.is_empty() && FIRST_CLOCK <= words[0] && words[0] <= LAST
}

// What recovery finds in an image.
pub(crate) fn contents_of(
    rt: &(impl Threads + Sync),
    alloc: Global,
    image: &Image,
) -> Result<Contents, Fail> {
    if image.old {
        return Err(Fail::new("an image of the first version"));
    }
    Ok(find_units(rt, alloc, image, 1)?.contents)
}

// Whether all units have the same state.
pub(crate) fn have_same_units(a: &Contents, b: &Contents) -> bool {
    let (a, b) = (a.units.as_slice(), b.units.as_slice());
    a.len() == b.len() && a.iter().zip(b).all(|(a, b)| same_state(a, b))
}

// What the numbers of all maps come to.
pub(crate) fn total_of(contents: &Contents) -> u64 {
    let mut total = 0u64;
    for unit in contents.units.as_slice() {
        if let UnitState::Map { state } = unit {
            total = total.wrapping_add(total_of_map(state));
        }
    }
    total
}

fn total_of_map(state: &MapState) -> u64 {
    let mut total = 0u64;
    for (_key, value) in state.iter() {
        total = total.wrapping_add(number_of(value));
    }
    total
}

// The number whose digits a text is.
fn number_of(text: &Text) -> u64 {
    let mut number = 0u64;
    for at in 0..text.len() {
        let digit = text.byte(at).wrapping_sub(b'0');
        number = number.wrapping_mul(10).wrapping_add(u64::from(digit));
    }
    number
}
