// Runs of drawn jobs: of one a hundred, in which the callers' threads take turns otherwise each
// time, and of one that has as many lines as a job may have, the header among them.
use crate::drawn_jobs::drawn_job;
use crate::reports::text_of_steady_run;
use job_text::{MOST_CALLERS, MOST_LINES};
use std::test::Fail;

const RUNS: u64 = 100;

const HEADER: &str = "montage-job 3 mmmmqqgg 64 4 20 0000000000000000\n";

const CALLERS: u64 = 4;

const LINES: u64 = 400;

const LONGEST_HEADER: &str = "montage-job 3 mmmmqqgg 4096 8 2000 0000000000000000\n";

#[test]
fn each_of_a_hundred_reports_is_faithful(rt: HostRuntime) -> Result<(), Fail> {
    let alloc = rt.alloc();
    let job = drawn_job(alloc, HEADER, CALLERS, LINES)?;
    let first = text_of_steady_run(&rt, alloc, &job)?;
    let mut differ = false;
    for _ in 0..RUNS {
        differ |= text_of_steady_run(&rt, alloc, &job)? != first;
    }
    if !differ {
        return Err(Fail::new("all reports are equal"));
    }
    Ok(())
}

#[test]
fn the_longest_job_has_a_faithful_report(rt: HostRuntime) -> Result<(), Fail> {
    let alloc = rt.alloc();
    let job = drawn_job(alloc, LONGEST_HEADER, MOST_CALLERS, MOST_LINES - 1)?;
    text_of_steady_run(&rt, alloc, &job)?;
    Ok(())
}
