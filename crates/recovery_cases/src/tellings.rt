// What is told of faults and of images.
use case_file::Unanswered;
use mont_base::FIELDS;
use mont_image::{Image, OLD_FIELDS};
use recover::{ImageFault, RecoverRefusal};
use std::alloc::{AllocError, Global};

/// A fault of an image.
pub fn told_fault(alloc: Global, fault: ImageFault) -> Result<Vec<u8>, Unanswered> {
    Ok(format!(in alloc; "{fault}\n")?.into_bytes())
}

/// Why an image is refused.
pub fn told_refusal(alloc: Global, refusal: RecoverRefusal) -> Result<Vec<u8>, Unanswered> {
    Ok(format!(in alloc; "{refusal}\n")?.into_bytes())
}

/// How many slots are lost, and the contents.
pub fn told_accepted(alloc: Global, lost: u64, contents: &[u8]) -> Result<Vec<u8>, Unanswered> {
    let mut told = format!(in alloc; "lost {lost}\n")?.into_bytes();
    told.extend_from_slice(contents)?;
    Ok(told)
}

/// The image as a case writes it: each slot that isn't all zeros, with its words.
pub fn told_image(alloc: Global, image: &Image) -> Result<Vec<u8>, Unanswered> {
    let mut told = String::new(alloc);
    push_image(&mut told, image)?;
    Ok(told.into_bytes())
}

fn push_image(told: &mut String, image: &Image) -> Result<(), AllocError> {
    let (version, fields) = if image.old {
        (1, OLD_FIELDS)
    } else {
        (3, FIELDS)
    };
    write!(told, "{version} ")?;
    for kind in image.layout.kinds().as_slice() {
        told.push(char::from(kind.letter()))?;
    }
    writeln!(told, " {} {}", image.layout.slots(), image.clock())?;
    push_slots(told, image.words.as_slice(), fields)
}

// The lines of the slots that aren't all zeros, which stand after the clock.
fn push_slots(told: &mut String, words: &[u64], fields: usize) -> Result<(), AllocError> {
    if let Some((_clock, slots)) = words.split_first() {
        for (slot, words) in slots.chunks(fields.max(1)).enumerate() {
            if words.iter().any(|word| *word != 0) {
                write!(told, "{slot} words")?;
                push_numbers(told, words)?;
            }
        }
    }
    Ok(())
}

/// Numbers with a space before each, and the end of their line.
pub fn push_numbers(told: &mut String, numbers: &[u64]) -> Result<(), AllocError> {
    for number in numbers {
        write!(told, " {number}")?;
    }
    writeln!(told)
}
