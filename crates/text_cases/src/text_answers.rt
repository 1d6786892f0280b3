// What comes of a case on the text of a job or of a report, or on what is made of a number.
use crate::generated_answer::answer_generated;
use crate::job_answer::answer_job;
use crate::judged::answer_judged;
use crate::report_answer::answer_report;
use crate::verdict_answer::answer_verdict;
use case_file::{Case, Unanswered, with_other_lines};
use std::thread::Threads;

/// Answers cases with a part `job`, a part `generated` or a part `report`. The lines of a part
/// `other lines` stand in the place of some of the report.
pub fn answer_to(
    rt: &(impl AllocGlobal + Threads + Sync),
    case: &Case,
) -> Result<Vec<u8>, Unanswered> {
    let alloc = rt.alloc();
    if let Some(name) = case.part("generated") {
        return answer_generated(alloc, case, name);
    }
    let Some(right) = case.part("report") else {
        return answer_job(alloc, case);
    };
    match case.part("other lines") {
        Some(others) => {
            let other = with_other_lines(alloc, right, others)?;
            answer_to_report(rt, case, right, other.as_slice())
        }
        None => answer_to_report(rt, case, right, right),
    }
}

// What is told of a report: the verdict on it where the case has an image, whether it is faithful
// where the case has a job, and else what comes of its text.
fn answer_to_report(
    rt: &(impl AllocGlobal + Threads + Sync),
    case: &Case,
    right: &[u8],
    text: &[u8],
) -> Result<Vec<u8>, Unanswered> {
    let alloc = rt.alloc();
    if case.part("image").is_some() {
        answer_verdict(rt, case, text)
    } else if let Some(job) = case.part("job") {
        answer_judged(alloc, case, job, right, text)
    } else {
        answer_report(alloc, case, text)
    }
}
