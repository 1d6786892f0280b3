// Lines that stand for many steps: a record that is written whole, and an advance of the clock.
use crate::line_fault::LineFault;
use crate::line_numbers::{first_word, numbers_of};
use crate::machine_run::{Run, make};
use core_steps::{AdvPart, Core, Event, UnitStage};
use mont_base::FIELDS;
use std::alloc::Global;

// An advance has no more steps.
const MOST_STEPS: u64 = 100_000;

/// The twelve stores of a record, of the epoch in which the unit is registered:
/// `KIND UNIT SLOT IDENTITY VERSION` and the words of its body.
pub fn write(alloc: Global, run: &mut Run, line: &str) -> Result<(), LineFault> {
    let (kind, words) = first_word(line);
    let numbers = numbers_of(words)?;
    let (unit, slot) = (numbers[0], numbers[1]);
    let epoch = epoch_of(&run.core, unit);
    let record = record_words(epoch, kind, unit, &numbers[2..]);
    for field in 1..=FIELDS {
        let field = field % FIELDS;
        let store = Event::Store {
            unit,
            slot,
            field: field as u64,
            value: record[field],
        };
        make(alloc, run, &store)?;
    }
    Ok(())
}

fn epoch_of(core: &Core, unit: u64) -> u64 {
    match core.units.get(unit).map(|part| part.stage) {
        Some(UnitStage::Within { epoch }) => epoch,
        _ => 0,
    }
}

/// The words of a record: kind, and identity, version and body. A kind that there is not is 0.
pub fn record_words(epoch: u64, kind: &str, unit: u64, told: &[u64]) -> [u64; FIELDS] {
    let kind: u64 = match kind {
        "new" => 256,
        "copy" => 512,
        "delete" => 768,
        _ => 0,
    };
    let mut record = [0; FIELDS];
    record[0] = epoch;
    record[1] = kind.saturating_add(unit);
    for (word, value) in record[2..].iter_mut().zip(told) {
        *word = *value;
    }
    record
}

/// All that the advancer writes back at this clock.
pub fn flush(alloc: Global, run: &mut Run) -> Result<(), LineFault> {
    for _word in 0..MOST_STEPS {
        match make(alloc, run, &Event::LoadWord) {
            Ok(()) => make(alloc, run, &Event::PersistWord)?,
            Err(LineFault::NotAllowed) => return Ok(()),
            Err(fault) => return Err(fault),
        }
    }
    Ok(())
}

/// The advancer's steps until it rests again, or isn't let on.
pub fn advance(alloc: Global, run: &mut Run) -> Result<(), LineFault> {
    for _step in 0..MOST_STEPS {
        let before = run.core.advancer;
        advance_once(alloc, run)?;
        if run.core.advancer == AdvPart::Rest {
            return Ok(());
        }
        if run.core.advancer == before {
            return Err(LineFault::Held);
        }
    }
    Ok(())
}

fn advance_once(alloc: Global, run: &mut Run) -> Result<(), LineFault> {
    match run.core.advancer {
        AdvPart::Rest | AdvPart::Checking { .. } => make(alloc, run, &Event::Check),
        AdvPart::Flushing { .. } => match make(alloc, run, &Event::LoadWord) {
            Err(LineFault::NotAllowed) => make(alloc, run, &Event::SetClock),
            other => other,
        },
        AdvPart::Holding { .. } => make(alloc, run, &Event::PersistWord),
        AdvPart::Clocked => make(alloc, run, &Event::PersistClock),
    }
}
