// The generated job of a number.
ghost use Rattle.std.specs.Prelude.{◌≡◌, ◌++◌, ◌<◌, IfOk, OnOk};
ghost use Rattle.job_text.specs.Grammar.{IsJob};
ghost use Rattle.big_job.specs.Generated.{first_lines, generated_head, generated_job};

use crate::caller_words::CallerWords;
use crate::generated_lines::{CALLERS, LINES, op_of};
use job_text::{Deed, Job, Line};
use mont_base::{Kinds, Layout, Sequence};
use std::alloc::{AllocError, Global};

const SLOTS: u64 = 2048;

const ATTEMPTS: u64 = 100;

/// The generated job of a number. Each of its four callers has a map unit for its own keys, and all
/// of them share a queue and a graph.
pub fn big_job(alloc: Global, number: u64) -> Result<Job, AllocError>
    ensures value { IfOk result (λ job. job ≡ generated_job number) }
    ensures job { IfOk result IsJob }
{
    let mut lines = Sequence::new(alloc);
    for caller in 0..CALLERS {
        push_lines(&mut lines, number, caller)?;
    }
    Ok(Job {
        layout: layout(),
        callers: CALLERS,
        attempts: ATTEMPTS,
        mask: 0,
        stops: Sequence::new(alloc),
        lines,
    })
}

// Four maps, a queue and a graph.
fn layout() -> Layout
    ensures { result ≡ generated_head.layout }
{
    Layout::new(Kinds::old(CALLERS), SLOTS).unwrap()
}

// Adds the lines of a caller.
fn push_lines(lines: &mut Sequence<Line>, number: u64, caller: u64) -> Result<(), AllocError>
    requires { caller < CALLERS }
    ensures { OnOk result (lines.new ≡ lines.old ++ first_lines number caller LINES) }
{
    let mut words = CallerWords::new(number, caller);
    for line in 0..LINES {
        words.step();
        let op = op_of(caller, line, words.word);
        lines.push(Line {
            caller,
            deed: Deed::Call { op },
        })?;
    }
    Ok(())
}
