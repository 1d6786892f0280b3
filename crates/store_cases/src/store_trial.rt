// The trial of all cases of some files. What answers a script waits for locks and starts threads,
// which a `Subject` of other cases isn't given.
use crate::script_fault::{ScriptFault, Untold};
use crate::script_runs::tell_script;
use anyhow::Result;
use case_file::{Case, Tally, cases_of};
use std::alloc::Global;
use std::process::ExitCode;
use std::rt::{Env, Files};
use std::sync::Wait;
use std::thread::Threads;
use std::{env, str};

/// Tries the cases of the files that the words of the command line name. For each it prints a line,
/// and at last how many there were. The exit status is 0 where of each came what is wanted.
pub fn try_all<R: Print + AllocGlobal + Files + Env + Threads + Wait + Sync>(
    rt: &R,
) -> Result<ExitCode> {
    let mut tally = Tally::new();
    for path in env::args(rt)?.skip(1) {
        for case in &cases_of(rt, path.as_str())? {
            tally.take(rt, case, answer_to(rt, case))?;
        }
    }
    tally.end(rt)
}

// What is told of the script of a case.
fn answer_to<R: AllocGlobal + Threads + Wait + Sync>(
    rt: &R,
    case: &Case,
) -> Result<Vec<u8>, Untold> {
    let mut line = 0;
    match told_of(rt, rt.alloc(), case, &mut line) {
        Ok(told) => Ok(told.into_bytes()),
        Err(fault) => Err(Untold { line, fault }),
    }
}

// The same, which leaves the number of the last line that was read.
fn told_of<R: Threads + Wait + Sync>(
    rt: &R,
    alloc: Global,
    case: &Case,
    read: &mut usize,
) -> Result<String, ScriptFault> {
    let Ok(script) = str::from_utf8(case.needed("script")?) else {
        return Err(ScriptFault::Unclear);
    };
    let lines: Vec<&str> = script.lines().collect(alloc)?;
    tell_script(rt, alloc, case, lines.as_slice(), read)
}
