// What single words of a script say. Numbers and operations are read as in a job.
use crate::script_fault::ScriptFault;
use job_text::{MOST_WORDS, number, read_op, words};
use mont_base::{Op, Text};
use std::alloc::Global;

// The masks of a line that tells none: no word is current, each is, the clock alone and all but the
// clock, and each second word.
const SIX_MASKS: [u64; 6] = [
    0,
    u64::MAX,
    1,
    u64::MAX - 1,
    0x5555_5555_5555_5555,
    0xaaaa_aaaa_aaaa_aaaa,
];

/// The number that a word spells.
pub fn number_in(word: &str) -> Result<u64, ScriptFault> {
    number(word.as_bytes()).ok_or(ScriptFault::Unclear)
}

/// The mask that digits of base 16 spell.
pub fn mask_in(word: &str) -> Result<u64, ScriptFault> {
    match u64::from_str_radix(word, 16) {
        Ok(mask) => Ok(mask),
        Err(_) => Err(ScriptFault::Unclear),
    }
}

/// The masks that words spell, or six where there are none.
pub fn masks_in(alloc: Global, words: &[&str]) -> Result<Vec<u64>, ScriptFault> {
    let mut masks = Vec::new(alloc);
    if words.is_empty() {
        masks.extend_from_slice(&SIX_MASKS)?;
    }
    for word in words {
        masks.push(mask_in(word)?)?;
    }
    Ok(masks)
}

/// The operation that words spell, whether or not the store has a unit for it.
pub fn op_in(asked: &str) -> Option<Op> {
    read_op(words::<MOST_WORDS>(asked.as_bytes())?.as_slice())
}

/// The text that a word spells.
pub fn text_in(word: &str) -> Option<Text> {
    key_of(&read_op(&[b"get".as_slice(), word.as_bytes()])?)
}

// The key of a look-up.
fn key_of(op: &Op) -> Option<Text> {
    match op {
        Op::Get { key } => Some(*key),
        _ => None,
    }
}
