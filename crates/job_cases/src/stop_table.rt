// Runs that are stopped before each of their steps. A part `stops` has the first and the last
// number of steps, a part `masks` some masks; in the job the word STEPS stands for each number, the
// word MASK for each mask. The words are those of a run that writes an image, and after each run
// its report is held against its image by `check F`.
//
// For each mask the table has the numbers of steps, and of the report the lines from that of the
// first caller on, and the line of the verdict. A table that is that of the mask before isn't told
// again.
use crate::came_of_process::{Came, Given, came_of, text_in};
use crate::number_ranges::in_ranges;
use case_file::{Unanswered, numbers_in};
use std::alloc::{AllocError, Global};
use std::rt::Files;
use std::str;
use std::sync::Wait;
use std::thread::Threads;

/// The part that has the numbers of steps.
pub const STOPS: &str = "stops";

/// What comes of all runs.
pub fn stop_table<R: AllocGlobal + Files + Threads + Wait + Sync>(
    rt: &R,
    given: &Given<'_>,
    steps: &[u8],
) -> Result<Vec<u8>, Unanswered> {
    let steps = numbers_in(rt.alloc(), STOPS, steps)?;
    let mut told = String::new(rt.alloc());
    tell_masks(rt, given, &steps, &mut told)?;
    Ok(told.into_bytes())
}

// Tells the tables of all masks, but for one that is that before.
fn tell_masks<R: AllocGlobal + Files + Threads + Wait + Sync>(
    rt: &R,
    given: &Given<'_>,
    steps: &[u64],
    told: &mut String,
) -> Result<(), Unanswered> {
    let mut before = String::new(rt.alloc());
    let masks = given.case.needed("masks")?;
    for mask in text_in("masks", masks)?.split_ascii_whitespace() {
        let table = table_of(rt, given, steps, mask)?;
        writeln!(told, "mask {mask}")?;
        if table != before {
            told.push_str(&table)?;
        }
        before = table;
    }
    Ok(())
}

// What comes of the runs with a mask.
fn table_of<R: AllocGlobal + Files + Threads + Wait + Sync>(
    rt: &R,
    given: &Given<'_>,
    steps: &[u64],
    mask: &str,
) -> Result<String, Unanswered> {
    let [first, last] = steps else {
        return Err(Unanswered::Unclear { head: STOPS });
    };
    let mut lines = String::new(rt.alloc());
    for number in *first..last.saturating_add(1) {
        push_run(rt, given, mask, number, &mut lines)?;
    }
    Ok(in_ranges(rt.alloc(), *first, &lines)?)
}

// Adds what comes of a run with a mask and a number of steps.
fn push_run<R: AllocGlobal + Files + Threads + Wait + Sync>(
    rt: &R,
    given: &Given<'_>,
    mask: &str,
    number: u64,
    lines: &mut String,
) -> Result<(), Unanswered> {
    let job = stopped_job(rt.alloc(), text_in("job", given.job)?, mask, number)?;
    let run = came_of(
        rt,
        &Given {
            job: job.as_bytes(),
            ..*given
        },
    )?;
    push_judged(rt, given, &run, lines)
}

// The job with a mask and a number of steps.
fn stopped_job(alloc: Global, job: &str, mask: &str, number: u64) -> Result<String, AllocError> {
    let digits = format!(in alloc; "{number}")?;
    let masked = job.replace(alloc, "MASK", mask)?;
    masked.replace(alloc, "STEPS", digits.as_str())
}

// Adds what came of a run, and the verdict of `check F` on it, in one line.
fn push_judged<R: AllocGlobal + Files + Threads + Wait + Sync>(
    rt: &R,
    given: &Given<'_>,
    run: &Came,
    lines: &mut String,
) -> Result<(), Unanswered> {
    let verdict = came_of(
        rt,
        &Given {
            words: b"check F",
            job: &run.out,
            image: &run.image,
            ..*given
        },
    )?;
    Ok(push_told(lines, &run.out, &verdict.out)?)
}

// Adds the lines of a report from that of the first caller on, and the verdict.
fn push_told(lines: &mut String, report: &[u8], verdict: &[u8]) -> Result<(), AllocError> {
    let mut is_behind = false;
    for told in str::from_utf8(report).unwrap_or("").lines() {
        is_behind = is_behind || told.starts_with("caller 0 ");
        if is_behind {
            write!(lines, "{told}, ")?;
        }
    }
    writeln!(
        lines,
        "{}",
        str::from_utf8(verdict).unwrap_or("").trim_end()
    )
}
