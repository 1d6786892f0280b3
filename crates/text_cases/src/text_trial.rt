// The trial of all cases of some files. A verdict holds an image, by threads, which a `Subject` of
// other cases isn't given.
use crate::text_answers::answer_to;
use anyhow::Result;
use case_file::{Tally, cases_of};
use std::env;
use std::process::ExitCode;
use std::rt::{Env, Files};
use std::thread::Threads;

/// Tries the cases of the files that the words of the command line name. For each it prints a line,
/// and at last how many there were. The exit status is 0 where of each came what is wanted.
pub fn try_texts<R: Print + AllocGlobal + Files + Env + Threads + Sync>(
    rt: &R,
) -> Result<ExitCode> {
    let mut tally = Tally::new();
    for path in env::args(rt)?.skip(1) {
        for case in &cases_of(rt, path.as_str())? {
            tally.take(rt, case, answer_to(rt, case))?;
        }
    }
    tally.end(rt)
}
