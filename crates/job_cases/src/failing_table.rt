// Devices that fail in each of their calls. A line of a part `each failing` is `reads`,
// `image reads`, `writes` or `image writes`: each call of that device fails in turn, and no other.
// After the word `all`, as in `all writes`, the calls after it fail too.
//
// For each line the table has the numbers of the calls with what is said of the fault, up to the
// first call that isn't made. What the sinks took besides is looked at: of the device that fails
// the front that its calls before took, of an image nothing before the whole report.
use crate::came_of_process::{Came, Given, came_of, text_in};
use crate::devices_told::{Failing, IMAGE_READS, IMAGE_WRITES, READS, WRITES, piece_of};
use crate::number_ranges::in_ranges;
use case_file::Unanswered;
use std::alloc::AllocError;
use std::rt::Files;
use std::str;
use std::sync::Wait;
use std::thread::Threads;

/// The part that names the devices.
pub const EACH_FAILING: &str = "each failing";

// No device is called more often.
const MOST_CALLS: u64 = 10_000;

// Where the calls after one fail too, so many do.
const CALLS_BEHIND: u64 = 100;

/// What comes where each call fails.
pub fn failing_table<R: AllocGlobal + Files + Threads + Wait + Sync>(
    rt: &R,
    given: &Given<'_>,
    devices: &[u8],
) -> Result<Vec<u8>, Unanswered> {
    let mut told = String::new(rt.alloc());
    for line in text_in(EACH_FAILING, devices)?.lines() {
        writeln!(told, "{line}")?;
        push_table(rt, given, line, &mut told)?;
    }
    Ok(told.into_bytes())
}

// Adds what comes where the calls fail of which a line tells.
fn push_table<R: AllocGlobal + Files + Threads + Wait + Sync>(
    rt: &R,
    given: &Given<'_>,
    line: &str,
    told: &mut String,
) -> Result<(), Unanswered> {
    let whole = came_of(rt, given)?;
    let mut lines = String::new(rt.alloc());
    push_calls(rt, given, failing_in(line)?, &whole, &mut lines)?;
    Ok(told.push_str(&in_ranges(rt.alloc(), 0, &lines)?)?)
}

// How the first call fails of which a line tells.
fn failing_in(line: &str) -> Result<Failing, Unanswered> {
    let (name, last) = match line.strip_prefix("all ") {
        Some(name) => (name, CALLS_BEHIND),
        None => (line, 0),
    };
    let head = match name {
        "reads" => READS,
        "image reads" => IMAGE_READS,
        "writes" => WRITES,
        "image writes" => IMAGE_WRITES,
        _ => return Err(Unanswered::Unclear { head: EACH_FAILING }),
    };
    Ok(Failing {
        head,
        first: 0,
        last,
    })
}

// Adds what comes where each call fails, up to the first that isn't made.
fn push_calls<R: AllocGlobal + Files + Threads + Wait + Sync>(
    rt: &R,
    given: &Given<'_>,
    failing: Failing,
    whole: &Came,
    lines: &mut String,
) -> Result<(), Unanswered> {
    let piece = piece_of(rt.alloc(), given.case)?;
    for call in 0..MOST_CALLS {
        let failing = Failing {
            first: call,
            last: call.saturating_add(failing.last),
            ..failing
        };
        let came = came_of(
            rt,
            &Given {
                failing: Some(failing),
                ..*given
            },
        )?;
        push_told(
            lines,
            failing.head,
            call.saturating_mul(piece),
            whole,
            &came,
        )?;
        if came.code == whole.code {
            return Ok(());
        }
    }
    Ok(())
}

// Adds what came where a device failed, whose calls before had so many bytes: what was said after
// what was to be written, and the exit status.
fn push_told(
    lines: &mut String,
    head: &str,
    taken: u64,
    whole: &Came,
    came: &Came,
) -> Result<(), AllocError> {
    if came.code == whole.code {
        let is_same = came.out == whole.out && came.image == whole.image;
        let told = if is_same {
            "isn't made"
        } else {
            "another answer"
        };
        return writeln!(lines, "{told}");
    }
    let (out, image) = match head {
        WRITES => (taken, 0),
        IMAGE_WRITES => (u64::MAX, taken),
        _ => (0, 0),
    };
    let (out, image) = (front(&whole.out, out), front(&whole.image, image));
    writeln!(
        lines,
        "exit status {}, {}",
        came.code,
        said_behind(came, out, image)
    )
}

// What was said after this output, if the sinks took it and this image.
fn said_behind<'a>(came: &'a Came, out: &[u8], image: &[u8]) -> &'a str {
    let Some(said) = came.out.strip_prefix(out) else {
        return "another output";
    };
    if came.image.as_slice() != image {
        return "another image";
    }
    match str::from_utf8(said).unwrap_or("").trim_end() {
        "" => "nothing said",
        said => said,
    }
}

// So many bytes, or all.
fn front(bytes: &[u8], count: u64) -> &[u8] {
    let count = usize::try_from(count).unwrap_or(usize::MAX);
    bytes.get(..count).unwrap_or(bytes)
}
