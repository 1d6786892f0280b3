// The words of a core by their places.
ghost use Rattle.std.specs.Prelude.{◌≡◌, ◌-◌, ◌^◌, min, slice_index, slice_set};
ghost use Rattle.mont_base.specs.Layout.{word_of};
ghost use Rattle.core_steps.specs.Clock.{clock, durable_clock, next_clock};

use core_steps::Core;
use mont_base::{Epoch, FIELDS, Sequence, Slot};

/// The current clock: the first word, as a load finds it.
pub fn clock(core: &Core) -> Epoch
    ensures { result ≡ clock core.now }
{
    word(&core.cur, 0)
}

/// The clock that a crash leaves.
pub fn durable_clock(core: &Core) -> Epoch
    ensures { result ≡ durable_clock core.now }
{
    word(&core.dur, 0)
}

/// The word at a place, and 0 after the end.
pub fn word(words: &Sequence<u64>, place: u64) -> u64
    ensures { result ≡ slice_index words.now place }
{
    words.get(place).copied().unwrap_or(0)
}

/// Puts a word in its place, and does nothing after the end.
pub fn store(words: &mut Sequence<u64>, place: u64, value: u64)
    ensures { words.new ≡ slice_set words.old place value }
{
    if place < words.len() {
        words.set(place, value);
    }
}

/// The word of a slot, and 0 after the end.
pub fn slot_word(words: &Sequence<u64>, slot: Slot, field: u64) -> u64
    ensures { result ≡ slice_index words.now (word_of slot field) }
{
    let _len = words.len();
    word(words, place_of(slot, field))
}

/// Puts a word of a slot in its place, and does nothing after the end.
pub fn store_slot_word(words: &mut Sequence<u64>, slot: Slot, field: u64, value: u64)
    ensures { words.new ≡ slice_set words.old (word_of slot field) value }
{
    let _len = words.len();
    store(words, place_of(slot, field), value);
}

// The place of a slot's word. A place above all numbers is after every end, and so is the greatest
// number.
fn place_of(slot: Slot, field: u64) -> u64
    ensures { result ≡ min (word_of slot field) (2 ^ 64 - 1) }
{
    (FIELDS as u64)
        .saturating_mul(slot)
        .saturating_add(field)
        .saturating_add(1)
}
