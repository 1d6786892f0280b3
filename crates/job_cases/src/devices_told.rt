// How the devices of a case give and take bytes, and fail.
use case_file::{Case, Unanswered, numbers_in};
use mont_base::{MemSink, MemSource};
use std::alloc::{AllocError, Global};

/// The parts that have the calls that fail, of the source of the job, of that of the image, of the
/// sink of the report, and of that of the image.
pub const READS: &str = "failing reads";

pub const IMAGE_READS: &str = "failing image reads";

pub const WRITES: &str = "failing writes";

pub const IMAGE_WRITES: &str = "failing image writes";

// How many bytes a report and an image have at most.
const MOST_BYTES: u64 = 1_048_576;

/// The calls from the first to the last one of a device fail, and no others of it.
#[derive(Clone, Copy)]
pub struct Failing {
    /// The part that the case would have.
    pub head: &'static str,
    pub first: u64,
    pub last: u64,
}

/// How many bytes a call gives or takes: 4096 where the case tells no number.
pub fn piece_of(alloc: Global, case: &Case) -> Result<u64, Unanswered> {
    match case.number(alloc, "pieces")?.unwrap_or(4096) {
        0 => Err(Unanswered::Unclear { head: "pieces" }),
        piece => Ok(piece),
    }
}

/// A source of a text, whose calls fail that are told of it.
pub fn source_of(
    alloc: Global,
    case: &Case,
    failing: Option<Failing>,
    head: &'static str,
    text: &[u8],
) -> Result<MemSource, Unanswered> {
    let piece = piece_of(alloc, case)?.max(1);
    let fails = calls_of(alloc, case, failing, head)?;
    Ok(MemSource::new(text.to_vec(alloc)?, piece, fails))
}

/// A sink, whose calls fail that are told of it.
pub fn sink_of(
    alloc: Global,
    case: &Case,
    failing: Option<Failing>,
    head: &'static str,
) -> Result<MemSink, Unanswered> {
    let piece = piece_of(alloc, case)?.max(1);
    let fails = calls_of(alloc, case, failing, head)?;
    Ok(MemSink::new(alloc, MOST_BYTES, piece, fails)?)
}

// The calls that fail of the device whose part has this head.
fn calls_of(
    alloc: Global,
    case: &Case,
    failing: Option<Failing>,
    head: &'static str,
) -> Result<Vec<u64>, Unanswered> {
    match failing {
        Some(failing) if failing.head == head => Ok(numbers(alloc, failing)?),
        _ => numbers_in(alloc, head, case.part(head).unwrap_or(b"")),
    }
}

// The numbers from the first to the last.
fn numbers(alloc: Global, failing: Failing) -> Result<Vec<u64>, AllocError> {
    let mut numbers = Vec::new(alloc);
    for number in failing.first..failing.last.saturating_add(1) {
        numbers.push(number)?;
    }
    Ok(numbers)
}
