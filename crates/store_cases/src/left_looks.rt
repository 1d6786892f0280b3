// What is told of a store that was stopped.
use crate::history_lines::tell_histories;
use crate::judged_round::tell_judgement;
use crate::left_words::store_in;
use crate::scene::Scene;
use crate::script_fault::ScriptFault;
use crate::script_words::masks_in;
use job_text::write_units;
use mont_base::Words;
use recover::Recovered;
use std::alloc::{AllocError, Global};
use std::thread::Threads;
use store_stop::Stopped;

/// Tells what is asked of the last store. One that was stopped in its sweep has only words.
pub fn tell_look(
    rt: &(impl Threads + Sync),
    scene: &mut Scene<'_>,
    asked: &[&str],
) -> Result<(), ScriptFault> {
    let alloc = scene.alloc;
    let told = &mut scene.told;
    let Some(left) = &scene.left else {
        return Err(ScriptFault::Place);
    };
    match asked {
        ["image", masks @ ..] => tell_images(told, rt, alloc, &left.words, masks, true),
        ["contents", masks @ ..] => tell_images(told, rt, alloc, &left.words, masks, false),
        ["clocks"] => Ok(tell_clocks(told, &left.words)?),
        _ if left.histories.is_empty() => Err(ScriptFault::Place),
        ["base"] => Ok(tell_base(told, left)?),
        ["histories"] => Ok(tell_histories(told, alloc, left)?),
        ["judge"] => tell_judgement(told, rt, alloc, left),
        _ => Err(ScriptFault::Unclear),
    }
}

// Tells what a store opened with.
fn tell_base(told: &mut String, left: &Stopped) -> Result<(), AllocError> {
    writeln!(told, "base {}", left.base_clock)?;
    write_units(told, &left.words.layout.kinds(), left.base.units.as_slice())
}

// Tells the current clock and the durable one.
fn tell_clocks(told: &mut String, words: &Words) -> Result<(), AllocError> {
    let clock = words.cur.get(0).copied().unwrap_or(0);
    let durable = words.dur.get(0).copied().unwrap_or(0);
    writeln!(told, "clock {clock}, durable {durable}")
}

// Tells the images that masks pick, those together of which the same is told.
fn tell_images(
    told: &mut String,
    rt: &(impl Threads + Sync),
    alloc: Global,
    words: &Words,
    masks: &[&str],
    with_lost: bool,
) -> Result<(), ScriptFault> {
    let masks = masks_in(alloc, masks)?;
    let mut texts = Vec::new(alloc);
    for mask in &masks {
        let found = store_in(rt, alloc, words, *mask, 1)?;
        texts.push(found_text(alloc, words, &found, with_lost)?)?;
    }
    Ok(tell_texts(told, masks.as_slice(), texts.as_slice())?)
}

// Tells each text once, after all of its masks.
fn tell_texts(told: &mut String, masks: &[u64], texts: &[String]) -> Result<(), AllocError> {
    for (at, text) in texts.iter().enumerate() {
        if is_first(texts, at, text.as_str()) {
            write!(told, "image of")?;
            tell_masks(told, masks, texts, text.as_str())?;
            write!(told, "\n{text}")?;
        }
    }
    Ok(())
}

// Whether no text before a place is this one.
fn is_first(texts: &[String], at: usize, text: &str) -> bool {
    texts
        .iter()
        .take(at)
        .all(|earlier| earlier.as_str() != text)
}

// Tells the masks of a text.
fn tell_masks(
    told: &mut String,
    masks: &[u64],
    texts: &[String],
    text: &str,
) -> Result<(), AllocError> {
    for (mask, other) in masks.iter().zip(texts.iter()) {
        if other.as_str() == text {
            write!(told, " {mask:016x}")?;
        }
    }
    Ok(())
}

// What is told of an image: its clock, the lost slots if these are asked for, and its contents.
fn found_text(
    alloc: Global,
    words: &Words,
    found: &Recovered,
    with_lost: bool,
) -> Result<String, AllocError> {
    let mut told = String::new(alloc);
    write!(told, "image {}", found.clock())?;
    if with_lost {
        write!(told, ", lost {}", found.lost())?;
    }
    writeln!(told)?;
    write_units(
        &mut told,
        &words.layout.kinds(),
        found.contents().units.as_slice(),
    )?;
    Ok(told)
}
