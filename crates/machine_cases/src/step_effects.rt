// What steps do to the words: `c5=1` makes the current word 5 a 1, `d5=1` the durable one, and a
// dot changes none. Word 0 is the clock, and slot 0 has the words 1 to 12.
use crate::machine_run::{Memories, Run};
use std::alloc::AllocError;

/// Tells a line with what each of its steps did, the first of which began with these memories.
pub fn tell_effects(run: &mut Run, line: &str, first: usize) -> Result<(), AllocError> {
    write!(run.told, "{line} ->")?;
    let begins = first.saturating_sub(1);
    let before = run.memories.iter().skip(begins);
    let behind = run.memories.iter().skip(first);
    for (old, new) in before.zip(behind) {
        write!(run.told, " ")?;
        tell_step(&mut run.told, old, new)?;
    }
    writeln!(run.told)
}

fn tell_step(told: &mut String, old: &Memories, new: &Memories) -> Result<(), AllocError> {
    let before = told.len();
    tell_words(told, "c", &old.current, &new.current)?;
    tell_words(told, "d", &old.durable, &new.durable)?;
    if told.len() == before {
        write!(told, ".")?;
    }
    Ok(())
}

fn tell_words(told: &mut String, memory: &str, old: &[u64], new: &[u64]) -> Result<(), AllocError> {
    for (place, (before, word)) in old.iter().zip(new.iter()).enumerate() {
        if before != word {
            write!(told, "{memory}{place}={word}")?;
        }
    }
    Ok(())
}
