// The trial of all cases of some files.
use crate::case::Case;
use crate::case_reader::read_cases;
use crate::case_refusal::Unanswered;
use crate::tally::Tally;
use anyhow::{Context, Result, anyhow};
use std::process::ExitCode;
use std::rt::{Env, Files};
use std::{env, fs, result};

/// What is tried by cases.
pub trait Subject {
    /// The text that comes of a case.
    fn answer(&self, case: &Case) -> result::Result<Vec<u8>, Unanswered>;
}

/// Tries the cases of the files that the words of the command line name. For each it prints a line,
/// and at last how many there were. The exit status is 0 where of each came what is wanted.
pub fn try_cases<R: Print + AllocGlobal + Files + Env, S: Subject>(
    rt: &R,
    subject: &S,
) -> Result<ExitCode> {
    let mut tally = Tally::new();
    for path in env::args(rt)?.skip(1) {
        for case in &cases_of(rt, path.as_str())? {
            tally.take(rt, case, subject.answer(case))?;
        }
    }
    tally.end(rt)
}

/// The cases of the file at a path.
pub fn cases_of<R: AllocGlobal + Files>(rt: &R, path: &str) -> Result<Vec<Case>> {
    let text = fs::read(rt, path).context(format_args!("{path}"))?;
    match read_cases(rt.alloc(), text.as_slice()) {
        Ok(cases) => Ok(cases),
        Err(refusal) => {
            let (line, fault) = (refusal.line, refusal.fault);
            Err(anyhow!("{path}, line {line}: {fault}"))
        }
    }
}
