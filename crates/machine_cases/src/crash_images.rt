// The images that a crash permits of a core, and what recovery makes of them.
//
//     images UNIT OP = REPLY          how many images of each clock there are, and in how many of
//                                     them the unit gives this reply
//     picked MASK UNIT OP = REPLY     whether it does in the image that a mask picks, and its clock
use crate::event_lines::answer_in;
use crate::line_fault::LineFault;
use crate::line_numbers::first_word;
use crate::machine_run::Run;
use core_answer::core_words::{clock, durable_clock};
use core_steps::Core;
use mont_base::{Epoch, Layout, Op, Reply};
use plain::{Contents, is_well_formed, recover};
use std::alloc::{AllocError, Global};

// What is asked of a unit, and the reply that it may give.
#[derive(Clone, Copy)]
struct Asked<'a> {
    unit: u64,
    op: &'a Op,
    reply: &'a Reply,
}

fn asked_in(words: &str) -> Result<(u64, Op, Reply), LineFault> {
    let (unit, answer) = first_word(words);
    let (op, reply) = answer_in(answer)?;
    match unit.parse() {
        Ok(unit) => Ok((unit, op, reply)),
        Err(_) => Err(LineFault::Unclear),
    }
}

/// Tells of all images.
pub fn tell_images(alloc: Global, run: &mut Run, words: &str) -> Result<(), LineFault> {
    let (unit, op, reply) = asked_in(words)?;
    let asked = Asked {
        unit,
        op: &op,
        reply: &reply,
    };
    write!(run.told, "images {words}: ")?;
    let (current, durable) = (clock(&run.core), durable_clock(&run.core));
    tell_at(alloc, &mut run.told, &run.core, &asked, durable)?;
    if current != durable {
        run.told.push_str(", ")?;
        tell_at(alloc, &mut run.told, &run.core, &asked, current)?;
    }
    Ok(run.told.push('\n')?)
}

// Tells of the images of a clock.
fn tell_at(
    alloc: Global,
    told: &mut String,
    core: &Core,
    asked: &Asked<'_>,
    clock: Epoch,
) -> Result<(), AllocError> {
    let (mut all, mut same) = (0_u64, 0_u64);
    for mask in 0..choices(core) {
        let image = image_of(alloc, core, mask, false)?;
        if image.first() == Some(&clock) {
            all = all.saturating_add(1);
            if is_given(alloc, core.layout, &image, asked)? {
                same = same.saturating_add(1);
            }
        }
    }
    write!(told, "{same} of {all} at {clock}")
}

/// Tells of the image that a mask picks. Words are current where it has a 1 at their number modulo
/// 64.
pub fn tell_picked(alloc: Global, run: &mut Run, words: &str) -> Result<(), LineFault> {
    let (digits, rest) = first_word(words);
    let (unit, op, reply) = asked_in(rest)?;
    let asked = Asked {
        unit,
        op: &op,
        reply: &reply,
    };
    let Ok(mask) = u64::from_str_radix(digits, 16) else {
        return Err(LineFault::Unclear);
    };
    let image = image_of(alloc, &run.core, mask, true)?;
    let given = is_given(alloc, run.core.layout, &image, &asked)?;
    let clock = image.first().copied().unwrap_or(0);
    writeln!(run.told, "picked {words}: {given} at {clock}")?;
    Ok(())
}

// How many choices there are among the words that differ.
fn choices(core: &Core) -> u64 {
    let mut choices = 1u64;
    for (current, durable) in core.cur.as_slice().iter().zip(core.dur.as_slice()) {
        if current != durable {
            choices = choices.saturating_mul(2);
        }
    }
    choices
}

// The words, current where the mask has a 1 at their number: that of all words, modulo 64, or of
// those that differ.
fn image_of(alloc: Global, core: &Core, mask: u64, of_all: bool) -> Result<Vec<u64>, AllocError> {
    let mut image = Vec::new(alloc);
    let mut number = 0u64;
    for (current, durable) in core.cur.as_slice().iter().zip(core.dur.as_slice()) {
        let picked = mask >> (number % 64) & 1 == 1;
        image.push(if picked { *current } else { *durable })?;
        if of_all || current != durable {
            number = number.saturating_add(1);
        }
    }
    Ok(image)
}

// Whether recovery takes an image, and the unit that it rebuilds gives the reply.
fn is_given(
    alloc: Global,
    layout: Layout,
    image: &[u64],
    asked: &Asked<'_>,
) -> Result<bool, AllocError> {
    if !is_well_formed(alloc, layout, image)? {
        return Ok(false);
    }
    let mut contents = recover(alloc, layout, image)?;
    is_given_in(&mut contents, asked)
}

fn is_given_in(contents: &mut Contents, asked: &Asked<'_>) -> Result<bool, AllocError> {
    if asked.unit < contents.units.len() {
        let reply = contents.units.item_mut(asked.unit).apply(asked.op)?;
        Ok(reply == *asked.reply)
    } else {
        Ok(false)
    }
}
