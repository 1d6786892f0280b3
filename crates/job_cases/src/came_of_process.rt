// What comes of one process on the devices of a case, or on files.
use crate::devices_told::{Failing, IMAGE_READS, IMAGE_WRITES, READS, WRITES, sink_of, source_of};
use crate::ended_process::{ended, ended_on_files};
use case_file::{Case, Unanswered};
use index_kit::{Index, ProbeIndex, SortedIndex};
use mont_base::{MemSink, MemSource, Text};
use std::alloc::{AllocError, Global};
use std::rt::Files;
use std::str;
use std::sync::Wait;
use std::thread::Threads;

/// What a process is given.
#[derive(Clone, Copy)]
pub struct Given<'a> {
    /// The case, which tells how devices give, take and fail.
    pub case: &'a Case,
    /// Calls that fail besides.
    pub failing: Option<Failing>,
    /// A word for each box.
    pub boxes: &'a str,
    pub words: &'a [u8],
    pub job: &'a [u8],
    pub image: &'a [u8],
}

/// What comes of it: the exit status, the standard output, and what was written as an image.
#[derive(Drop)]
pub struct Came {
    pub code: u8,
    pub out: Vec<u8>,
    pub image: Vec<u8>,
}

// The devices that are asked, and those that are told.
#[derive(Drop)]
struct Sources {
    job: MemSource,
    image: MemSource,
}

#[derive(Drop)]
struct Sinks {
    out: MemSink,
    image: MemSink,
}

/// What comes of a process.
pub fn came_of<R: AllocGlobal + Files + Threads + Wait + Sync>(
    rt: &R,
    given: &Given<'_>,
) -> Result<Came, Unanswered> {
    let mut sources = sources_of(rt.alloc(), given)?;
    let mut sinks = sinks_of(rt.alloc(), given)?;
    came_over(rt, given, &mut sources, &mut sinks)
}

fn sources_of(alloc: Global, given: &Given<'_>) -> Result<Sources, Unanswered> {
    let Given { case, failing, .. } = *given;
    let job = source_of(alloc, case, failing, READS, given.job)?;
    let image = source_of(alloc, case, failing, IMAGE_READS, given.image)?;
    Ok(Sources { job, image })
}

fn sinks_of(alloc: Global, given: &Given<'_>) -> Result<Sinks, Unanswered> {
    let Given { case, failing, .. } = *given;
    let out = sink_of(alloc, case, failing, WRITES)?;
    let image = sink_of(alloc, case, failing, IMAGE_WRITES)?;
    Ok(Sinks { out, image })
}

// What comes of a process over these devices.
fn came_over<R: AllocGlobal + Files + Threads + Wait + Sync>(
    rt: &R,
    given: &Given<'_>,
    sources: &mut Sources,
    sinks: &mut Sinks,
) -> Result<Came, Unanswered> {
    let alloc = rt.alloc();
    let words = words_in(alloc, text_in("words", given.words)?)?;
    let code = code_of(rt, given, &words, sources, sinks)?;
    let out = sinks.out.taken().to_vec(alloc)?;
    let image = sinks.image.taken().to_vec(alloc)?;
    Ok(Came { code, out, image })
}

// The exit status of a process. The boxes are made where they are handed in.
fn code_of<R: AllocGlobal + Files + Threads + Wait + Sync>(
    rt: &R,
    given: &Given<'_>,
    words: &[String],
    sources: &mut Sources,
    sinks: &mut Sinks,
) -> Result<u8, Unanswered> {
    let alloc = rt.alloc();
    let mut indexes: Vec<Box<dyn Index + Send>> = Vec::new(alloc);
    for word in given.boxes.split_ascii_whitespace() {
        if word == "probed" {
            indexes.push(Box::new(alloc, ProbeIndex::new(alloc))?)?;
        } else {
            indexes.push(sorted_box(alloc, word)?)?;
        }
    }
    let Sources { job, image } = sources;
    Ok(if given.case.part("files").is_some() {
        ended_on_files(rt, words, job, indexes, &mut sinks.out)
    } else {
        ended(
            rt,
            words,
            job,
            image,
            indexes,
            &mut sinks.out,
            &mut sinks.image,
        )
    })
}

// A sorted box, which is empty or holds a pair.
fn sorted_box(alloc: Global, word: &str) -> Result<Box<SortedIndex>, Unanswered> {
    let mut index = SortedIndex::new(alloc);
    match word {
        "empty" => {}
        "full" => {
            index.reserve()?;
            let _ = index.put(Text::of_number(1), 0);
        }
        _ => return Err(Unanswered::Unclear { head: "boxes" }),
    }
    Ok(Box::new(alloc, index)?)
}

// The words of a command line.
fn words_in(alloc: Global, line: &str) -> Result<Vec<String>, AllocError> {
    let mut words = Vec::new(alloc);
    for word in line.split_ascii_whitespace() {
        words.push(String::from_str(alloc, word)?)?;
    }
    Ok(words)
}

/// The text that a part with this head has.
pub fn text_in<'a>(head: &'static str, bytes: &'a [u8]) -> Result<&'a str, Unanswered> {
    match str::from_utf8(bytes) {
        Ok(text) => Ok(text),
        Err(_) => Err(Unanswered::Unclear { head }),
    }
}
