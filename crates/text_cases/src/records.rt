// The records with which the units of a store were opened.
use case_file::{Case, Unanswered, numbers_in};
use mont_base::{FIELDS, Held, LAST, MOST_UNITS, Sequence};
use payload::read_words;
use std::alloc::Global;

const HEAD: &str = "records";

/// The records of each unit. A line of the part `records` has the number of a slot and its words.
pub fn records_in(alloc: Global, case: &Case) -> Result<Vec<Sequence<Held>>, Unanswered> {
    let mut units = Vec::new(alloc);
    for _ in 0..MOST_UNITS {
        units.push(Sequence::new(alloc))?;
    }
    if let Some(text) = case.part(HEAD) {
        let numbers = numbers_in(alloc, HEAD, text)?;
        for row in numbers.as_slice().chunks(1 + FIELDS) {
            add_record(units.as_mut_slice(), row)?;
        }
    }
    Ok(units)
}

fn add_record(units: &mut [Sequence<Held>], row: &[u64]) -> Result<(), Unanswered> {
    let Some(record) = record_of(row) else {
        return Err(Unanswered::Unclear { head: HEAD });
    };
    let Some(unit) = units.get_mut(record.label.unit as usize) else {
        return Err(Unanswered::Unclear { head: HEAD });
    };
    unit.push(record)?;
    Ok(())
}

// The record that the number of a slot and its words tell.
fn record_of(row: &[u64]) -> Option<Held> {
    let (slot, told) = row.split_first()?;
    if told.len() != FIELDS || told[0] > LAST {
        return None;
    }
    let mut words = [0; FIELDS];
    words.copy_from_slice(told);
    let (label, body) = read_words(words[1] % 256, &words).ok()??;
    Some(Held {
        slot: *slot,
        label,
        body,
    })
}
