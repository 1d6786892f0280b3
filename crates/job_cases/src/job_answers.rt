// What comes of a case on words, a job and an image.
use crate::came_of_process::{Came, Given, came_of, text_in};
use crate::failing_table::{EACH_FAILING, failing_table};
use crate::image_told::tell_image;
use crate::short_answer::in_short;
use crate::stop_table::{STOPS, stop_table};
use case_file::{Case, Unanswered, is_wanted};
use case_image::{has_image, image_text};
use std::alloc::{AllocError, Global};
use std::fs;
use std::rt::Files;
use std::sync::Wait;
use std::thread::Threads;

// The heads of what the process is asked, first and after that, each time with the image that was
// written last.
static STEPS: &[(&str, &str)] = &[
    ("words", "job"),
    ("next words", "next job"),
    ("last words", "last job"),
];

// As many empty boxes as a store has units, of either kind.
const SORTED_BOXES: &str = "empty empty empty empty empty empty empty empty \
                            empty empty empty empty empty empty empty empty";

const PROBED_BOXES: &str = "probed probed probed probed probed probed probed probed \
                            probed probed probed probed probed probed probed probed";

/// Answers a case by what the process writes to its standard output, the image that it writes, and
/// its exit status. The part `words` is its command line, the part `job` its standard input, the
/// part `image` its image. It is tried with empty boxes of either kind, where it tells no boxes of
/// its own, and as often as its part `times` says.
pub fn answer<R: AllocGlobal + Files + Threads + Wait + Sync>(
    rt: &R,
    case: &Case,
) -> Result<Vec<u8>, Unanswered> {
    let words = case.needed("words")?;
    let job = job_of(rt, case, "job")?;
    let image = image_of(rt.alloc(), case)?;
    answer_given(
        rt,
        &Given {
            case,
            failing: None,
            boxes: SORTED_BOXES,
            words,
            job: &job,
            image: &image,
        },
    )
}

fn answer_given<R: AllocGlobal + Files + Threads + Wait + Sync>(
    rt: &R,
    given: &Given<'_>,
) -> Result<Vec<u8>, Unanswered> {
    let case = given.case;
    if let Some(steps) = case.part(STOPS) {
        return stop_table(rt, given, steps);
    }
    if let Some(devices) = case.part(EACH_FAILING) {
        return failing_table(rt, given, devices);
    }
    match case.part("boxes") {
        Some(boxes) => answer_with(rt, given, text_in("boxes", boxes)?),
        None => answer_often(rt, given),
    }
}

// What comes of a case with empty boxes of either kind, which is tried so often.
fn answer_often<R: AllocGlobal + Files + Threads + Wait + Sync>(
    rt: &R,
    given: &Given<'_>,
) -> Result<Vec<u8>, Unanswered> {
    let mut got = Vec::new(rt.alloc());
    for _time in 0..given.case.number(rt.alloc(), "times")?.unwrap_or(1) {
        for boxes in [SORTED_BOXES, PROBED_BOXES] {
            got = answer_with(rt, given, boxes)?;
            if !is_wanted(given.case, got.as_slice()) {
                return Ok(got);
            }
        }
    }
    Ok(got)
}

// What comes of a case with these boxes.
fn answer_with<R: AllocGlobal + Files + Threads + Wait + Sync>(
    rt: &R,
    given: &Given<'_>,
    boxes: &str,
) -> Result<Vec<u8>, Unanswered> {
    let mut answer = Vec::new(rt.alloc());
    let mut image = given.image.to_vec(rt.alloc())?;
    for heads in STEPS {
        add_asked(
            rt,
            &Given { boxes, ..*given },
            *heads,
            &mut image,
            &mut answer,
        )?;
    }
    Ok(in_short(rt.alloc(), given.case, answer)?)
}

// Adds what the process answers the words with a head, where the case has them.
fn add_asked<R: AllocGlobal + Files + Threads + Wait + Sync>(
    rt: &R,
    given: &Given<'_>,
    heads: (&'static str, &'static str),
    image: &mut Vec<u8>,
    answer: &mut Vec<u8>,
) -> Result<(), Unanswered> {
    let (words_head, job_head) = heads;
    let Some(words) = given.case.part(words_head) else {
        return Ok(());
    };
    let job = job_of(rt, given.case, job_head)?;
    let came = came_of(
        rt,
        &Given {
            words,
            job: &job,
            image: image.as_slice(),
            ..*given
        },
    )?;
    Ok(add_came(rt.alloc(), &came, image, answer)?)
}

// Adds what came, and takes the image over, if one was written.
fn add_came(
    alloc: Global,
    came: &Came,
    image: &mut Vec<u8>,
    answer: &mut Vec<u8>,
) -> Result<(), AllocError> {
    answer.extend_from_slice(&came.out)?;
    let mut told = String::new(alloc);
    if !came.image.is_empty() {
        tell_image(alloc, &mut told, &came.image)?;
        image.clear();
        image.extend_from_slice(&came.image)?;
    }
    writeln!(told, "exit status {}", came.code)?;
    answer.extend_from_slice(told.as_bytes())
}

// The image that a case has, or no byte.
fn image_of(alloc: Global, case: &Case) -> Result<Vec<u8>, Unanswered> {
    if has_image(case) {
        image_text(alloc, case)
    } else {
        Ok(Vec::new(alloc))
    }
}

// The standard input: the part with this head, or the file that the part `job file` names.
fn job_of<R: AllocGlobal + Files>(
    rt: &R,
    case: &Case,
    head: &'static str,
) -> Result<Vec<u8>, Unanswered> {
    let Some(name) = case.part("job file") else {
        return Ok(case.part(head).unwrap_or(b"").to_vec(rt.alloc())?);
    };
    let name = text_in("job file", name)?;
    match fs::read(rt, name.trim()) {
        Ok(text) => Ok(text),
        Err(_) => Err(Unanswered::Unclear { head: "job file" }),
    }
}
