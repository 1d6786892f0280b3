// What stands in a slot, of which a case tells without an image. Its part `slot` has the number of
// the unit and the words of the slot.
ghost use Rattle.std.specs.Prelude.{◌≤◌, slice_index};

use crate::tellings::push_numbers;
use crate::units_told::push_record;
use case_file::{Unanswered, numbers_in};
use mont_base::{BODY, FIELDS, Held, LAST, Text, Unit};
use payload::{
    edge_body, edge_in, is_edge_body, is_vertex_body, item_body, item_in, kind_word, pair_body,
    pair_in, read_words, value_in, vertex_body, vertex_in, write_words,
};
use recover::ImageFault;
use std::alloc::{AllocError, Global};

/// The part that has the unit and the words.
pub const SLOT: &str = "slot";

/// What is read of the words: nothing, their first fault, or a record and all that its body may
/// hold.
pub fn slot_told(alloc: Global, part: &[u8]) -> Result<Vec<u8>, Unanswered> {
    let numbers = numbers_in(alloc, SLOT, part)?;
    let mut told = String::new(alloc);
    push_slot(&mut told, numbers.as_slice())?;
    Ok(told.into_bytes())
}

fn push_slot(told: &mut String, numbers: &[u64]) -> Result<(), Unanswered> {
    if let Some((unit, words)) = numbers.split_first() {
        if let Some(words) = words.first_chunk::<FIELDS>() {
            if words[0] <= LAST {
                return Ok(push_words(told, *unit, words)?);
            }
        }
    }
    Err(Unanswered::Unclear { head: SLOT })
}

fn push_words(told: &mut String, unit: Unit, words: &[u64; FIELDS]) -> Result<(), AllocError>
    requires { slice_index words.now 0 ≤ LAST }
{
    match read_words(unit, words) {
        Ok(Some(read)) => {
            let (label, body) = read;
            push_same(told, write_words(&label, body) == *words)?;
            push_same(told, kind_word(&label) == words[1])?;
            let slot = 0;
            push_record(told, &Held { slot, label, body })?;
            push_things(told, &body)
        }
        Ok(None) => writeln!(told, "closed"),
        Err(fault) => writeln!(told, "{}", ImageFault::Slot { slot: 0, fault }),
    }
}

// Says so where something isn't written as it was read.
fn push_same(told: &mut String, same: bool) -> Result<(), AllocError> {
    if same {
        return Ok(());
    }
    told.push_str("but it is written otherwise\n")
}

// All that a body may hold.
fn push_things(told: &mut String, body: &[u64; BODY]) -> Result<(), AllocError> {
    push_pair(told, body)?;
    if let Some((serial, item)) = item_in(body) {
        push_same(told, item_body(serial, item) == *body)?;
        push_thing(told, "item", &[serial, item])?;
    }
    if let Some((vertex, attribute)) = vertex_in(body) {
        push_same(told, vertex_body(vertex, attribute) == *body)?;
        push_thing(told, "vertex", &[vertex, attribute])?;
    }
    if let Some((ends, attribute)) = edge_in(body) {
        push_same(told, edge_body(ends, attribute) == *body)?;
        push_thing(told, "edge", &[ends.0, ends.1, attribute])?;
    }
    push_tags(told, body)
}

fn push_thing(told: &mut String, name: &str, numbers: &[u64]) -> Result<(), AllocError> {
    told.push_str(name)?;
    push_numbers(told, numbers)
}

// A key and a value, or a value alone.
fn push_pair(told: &mut String, body: &[u64; BODY]) -> Result<(), AllocError> {
    if let Some((key, value)) = pair_in(body) {
        push_same(told, pair_body(&key, &value) == *body)?;
        push_text(told, "key ", &key)?;
    }
    if let Some(value) = value_in(body) {
        push_text(told, "value ", &value)?;
    }
    Ok(())
}

fn push_tags(told: &mut String, body: &[u64; BODY]) -> Result<(), AllocError> {
    if is_vertex_body(body) {
        told.push_str("tag of a vertex\n")?;
    }
    if is_edge_body(body) {
        told.push_str("tag of an edge\n")?;
    }
    Ok(())
}

fn push_text(told: &mut String, name: &str, text: &Text) -> Result<(), AllocError> {
    told.push_str(name)?;
    if text.is_empty() {
        told.push('%')?;
    }
    for at in 0..text.len() {
        told.push(char::from(text.byte(at)))?;
    }
    told.push('\n')
}
