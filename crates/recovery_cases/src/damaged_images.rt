// Images that are damaged as it is drawn: what is read and recovered of each is what a plain
// recovery finds. The part `damaged` has how many there are; each is drawn from its number.
use crate::damage::{TextShape, damaged};
use crate::drawn_images::Draws;
use crate::found_text::told_by;
use crate::now::{ReadImage, image_now};
use crate::plain_judge::plainly_told;
use crate::tellings::told_fault;
use case_file::{Case, Unanswered, numbers_in};
use case_image::image_text;
use std::alloc::{AllocError, Global};
use std::collections::BTreeSet;
use std::fmt::Write;
use std::str;
use std::thread::Threads;

/// The part that has how many images there are.
pub const DAMAGED: &str = "damaged";

/// Whether all that is found is what a plain recovery finds, and which faults there were; else the
/// first image of which something else is found.
pub fn damaged_images(
    rt: &(impl Threads + Sync),
    alloc: Global,
    case: &Case,
    part: &[u8],
) -> Result<Vec<u8>, Unanswered> {
    let drawn = drawn_in(alloc, part)?;
    let text = image_text(alloc, case)?;
    told_of_all(rt, alloc, drawn, text.as_slice())
}

// How many images there are, and how their text lies.
#[derive(Clone, Copy)]
struct Drawn {
    count: u64,
    shape: TextShape,
}

fn drawn_in(alloc: Global, part: &[u8]) -> Result<Drawn, Unanswered> {
    let numbers = numbers_in(alloc, DAMAGED, part)?;
    match numbers.as_slice() {
        [count, front, fields] => Ok(Drawn {
            count: *count,
            shape: TextShape {
                front: *front as usize,
                fields: *fields as usize,
            },
        }),
        _ => Err(Unanswered::Unclear { head: DAMAGED }),
    }
}

// What is told of all images that are drawn of a text.
fn told_of_all(
    rt: &(impl Threads + Sync),
    alloc: Global,
    drawn: Drawn,
    text: &[u8],
) -> Result<Vec<u8>, Unanswered> {
    let mut came = BTreeSet::new(alloc);
    match first_difference(rt, alloc, drawn, text, &mut came)? {
        Some(differs) => Ok(differs),
        None => told_words(alloc, drawn.count, &came),
    }
}

// What differs at the first image of which something else is found. The first words of what is
// told of the images before it come into a set.
fn first_difference(
    rt: &(impl Threads + Sync),
    alloc: Global,
    drawn: Drawn,
    text: &[u8],
    came: &mut BTreeSet<String>,
) -> Result<Option<Vec<u8>>, Unanswered> {
    for seed in 0..drawn.count {
        let differs = difference(rt, alloc, seed, drawn.shape, text, came)?;
        if differs.is_some() {
            return Ok(differs);
        }
    }
    Ok(None)
}

// What differs at an image; else its first word comes into the set.
fn difference(
    rt: &(impl Threads + Sync),
    alloc: Global,
    seed: u64,
    shape: TextShape,
    text: &[u8],
    came: &mut BTreeSet<String>,
) -> Result<Option<Vec<u8>>, Unanswered> {
    let mut draws = Draws::of_seed(seed);
    let other = damaged(alloc, &mut draws, shape, text)?;
    let found = told_of(rt, alloc, &mut draws, other.as_slice())?;
    compare(alloc, seed, other.as_slice(), found.as_slice(), came)
}

// The same, once it is told what is found in the image.
fn compare(
    alloc: Global,
    seed: u64,
    image: &[u8],
    found: &[u8],
    came: &mut BTreeSet<String>,
) -> Result<Option<Vec<u8>>, Unanswered> {
    let plain = plainly_told(alloc, image)?;
    if found == plain.as_slice() {
        came.insert(first_word(alloc, plain.as_slice())?)?;
        Ok(None)
    } else {
        Ok(Some(differing(alloc, seed, found, plain.as_slice())?))
    }
}

// How many images there were, and these words.
fn told_words(alloc: Global, count: u64, came: &BTreeSet<String>) -> Result<Vec<u8>, Unanswered> {
    let mut told = format!(in alloc; "{count} images:")?;
    push_words(&mut told, came)?;
    Ok(told.into_bytes())
}

fn push_words(told: &mut String, words: &BTreeSet<String>) -> Result<(), AllocError> {
    for word in words {
        write!(told, " {word}")?;
    }
    writeln!(told)
}

// What is found in a text, by some workers.
fn told_of(
    rt: &(impl Threads + Sync),
    alloc: Global,
    draws: &mut Draws,
    text: &[u8],
) -> Result<Vec<u8>, Unanswered> {
    let workers = 1 + draws.number() % 64;
    match image_now(alloc, text, 4096)? {
        ReadImage::Faulty { fault } => told_fault(alloc, fault),
        ReadImage::Now { image } => told_by(rt, alloc, &image, workers),
    }
}

// The first word of what is told.
fn first_word(alloc: Global, told: &[u8]) -> Result<String, AllocError> {
    let told = str::from_utf8(told).unwrap_or("");
    let word = told.split_ascii_whitespace().next().unwrap_or("");
    String::from_str(alloc, word)
}

// What differs.
fn differing(alloc: Global, seed: u64, found: &[u8], plain: &[u8]) -> Result<Vec<u8>, AllocError> {
    let mut told = format!(in alloc; "image {seed} differs\n")?.into_bytes();
    told.extend_from_slice(found)?;
    told.extend_from_slice(b"and plainly\n")?;
    told.extend_from_slice(plain)?;
    Ok(told)
}
