// The slots of a text, each by itself, as images have them now.
use mont_base::{FIELDS, LABEL, Layout, Slot, Text, UnitKind};
use mont_image::OLD_FIELDS;
use payload::pair_body;
use std::alloc::{AllocError, Global};

/// A slot.
#[derive(Clone, Copy)]
pub struct PlainSlot {
    pub slot: Slot,
    pub words: [u64; FIELDS],
    /// Whether it is a map's of the first version, with a word of its body that isn't used and
    /// isn't 0.
    pub spare: bool,
}

/// The slots that these words are.
pub fn slots_in(
    alloc: Global,
    layout: &Layout,
    old: bool,
    words: &[u64],
) -> Result<Vec<PlainSlot>, AllocError> {
    let fields = if old { OLD_FIELDS } else { FIELDS };
    let mut slots = Vec::new(alloc);
    for (slot, own) in words.chunks(fields).enumerate() {
        let slot = slot as Slot;
        let words = padded(own);
        let is_pair = old && slot < layout.total() && is_of_map(layout, slot);
        slots.push(if is_pair {
            renewed(slot, words)
        } else {
            PlainSlot {
                slot,
                words,
                spare: false,
            }
        })?;
    }
    Ok(slots)
}

// Words, and zeros after them.
fn padded(own: &[u64]) -> [u64; FIELDS] {
    let mut words = [0; FIELDS];
    for (word, own) in words.iter_mut().zip(own) {
        *word = *own;
    }
    words
}

fn is_of_map(layout: &Layout, slot: Slot) -> bool {
    layout.kinds().get(layout.unit_of_slot(slot)) == Some(UnitKind::Map)
}

// A slot of a map of the first version, with the digits of its numbers in place of these.
fn renewed(slot: Slot, words: [u64; FIELDS]) -> PlainSlot {
    let [_, _, _, _, key, value, third, fourth, ..] = words;
    let mut now = words;
    now[LABEL..].copy_from_slice(&pair_body(&Text::of_number(key), &Text::of_number(value)));
    PlainSlot {
        slot,
        words: now,
        spare: third != 0 || fourth != 0,
    }
}
