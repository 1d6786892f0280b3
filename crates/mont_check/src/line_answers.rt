// Whether an outcome answers what its line asks.
ghost use Rattle.std.specs.Prelude.{◌≡◌, ◌↔◌, ℕ, IsTrue, Some};
ghost use Rattle.mont_base.specs.State.{unit_of_op};
ghost use Rattle.job_text.specs.AnsweredLines.{AnswersSync, AnswersTick, EndsWait, IsAnswer};
ghost use Rattle.job_text.specs.Causes.{IsHalted, IsReached, IsStuck, WasCutIn};
ghost use Rattle.job_text.specs.Faithful.{HasStop};
ghost use Rattle.job_text.specs.PlainReport.{report_of};
ghost use Rattle.mont_check.specs.CutUnits.{AllCutsLast};
ghost use Rattle.mont_check.specs.LineAnswers.{TellsAnswer, TellsCall, TellsCountEnd, TellsFull, TellsMayBeFull, first_clock};

use crate::cause::Cause;
use crate::cut_units::was_cut_in;
use crate::moments::{Finding, moment};
use crate::progress::Progress;
use crate::shown::entry_at;
use job_text::{Deed, Job, Line, Outcome, Report};
use mont_base::{Epoch, LAST, Op, Unit, Which};

/// What is found of the answer to a line by an outcome, where its caller's earlier outcomes have
/// shown this, and this is the first place that the later ones name in the unit of its operation.
pub fn answers(
    job: &Job,
    report: &Report,
    line: &Line,
    progress: &Progress,
    outcome: &Outcome,
    ahead: Option<u64>,
) -> Finding
    requires { AllCutsLast (report_of report.now) }
    ensures { TellsAnswer job.now (report_of report.now) line.now progress.now outcome.now ahead
        result }
{
    let caller = line.caller;
    match &line.deed {
        Deed::Call { op } => answers_call(job, report, caller, progress, op, outcome, ahead),
        Deed::Tick => Finding::told(answers_tick(job, report, caller, outcome)),
        Deed::Sync => Finding::told(answers_sync(job, report, caller, outcome)),
    }
}

// What is found of the answer to a call.
fn answers_call(
    job: &Job,
    report: &Report,
    caller: u64,
    progress: &Progress,
    op: &Op,
    outcome: &Outcome,
    ahead: Option<u64>,
) -> Finding
    requires { AllCutsLast (report_of report.now) }
    ensures { TellsCall job.now (report_of report.now) caller progress.now op.now outcome.now ahead
        result }
{
    match outcome {
        Outcome::At { unit, place } => {
            Finding::told(is_answer(report, caller, progress.calls, op, *unit, *place))
        }
        Outcome::Full { need, free, clock } => {
            is_full(report, progress, ahead, op, *need, *free, *clock)
        }
        Outcome::CountEnd { which } => ends_count(report, progress, ahead, op, *which),
        Outcome::Halted { unit, by } => Finding::told(is_halted(report, op, *unit, *by)),
        Outcome::CutIn { unit } => Finding::told(may_be_cut_in(job, report, caller, op, *unit)),
        ended => {
            if ends_wait(job, report, caller, ended) {
                may_be_full(report, progress, ahead, op)
            } else {
                Finding::Wrong
            }
        }
    }
}

// Whether a tick may have ended so: it moved the clock on from the base clock, unless it waited.
fn answers_tick(job: &Job, report: &Report, caller: u64, outcome: &Outcome) -> bool
    requires { AllCutsLast (report_of report.now) }
    ensures { IsTrue result
        ↔ AnswersTick (report_of report.now) (HasStop job.now caller) outcome.now }
{
    match outcome {
        Outcome::Ticked { epoch } => { report.base_clock < *epoch && *epoch <= report.image_clock }
        ended => ends_wait(job, report, caller, ended),
    }
}

// Whether a sync may have ended so.
fn answers_sync(job: &Job, report: &Report, caller: u64, outcome: &Outcome) -> bool
    requires { AllCutsLast (report_of report.now) }
    ensures { IsTrue result
        ↔ AnswersSync (report_of report.now) (HasStop job.now caller) outcome.now }
{
    match outcome {
        Outcome::Synced { epoch } => *epoch <= report.image_clock,
        ended => ends_wait(job, report, caller, ended),
    }
}

// Whether the entry at a place is the caller's call of the number, and the operation is its own.
fn is_answer(report: &Report, caller: u64, call: u64, op: &Op, unit: Unit, place: u64) -> bool
    ensures { IsTrue result
        ↔ IsAnswer (report_of report.now) caller call op.now unit place }
{
    match entry_at(report, unit, place) {
        Some(entry) => {
            op.unit(report.layout) == Some(unit)
                && entry.caller == caller
                && entry.call == call
                && entry.op == *op
        }
        None => false,
    }
}

// Whether the operation may have found its unit full as it is told.
fn is_full(
    report: &Report,
    progress: &Progress,
    ahead: Option<u64>,
    op: &Op,
    need: u64,
    free: u64,
    clock: Epoch,
) -> Finding
    ensures { TellsFull (report_of report.now) progress.now ahead op.now need free clock result }
{
    if !is_reached(report, clock) {
        return Finding::Wrong;
    }
    let cause = Cause::LacksRoom { need, free, clock };
    moment(report, progress, ahead, op, cause)
}

// Whether the operation may have found the number at its end.
fn ends_count(
    report: &Report,
    progress: &Progress,
    ahead: Option<u64>,
    op: &Op,
    which: Which,
) -> Finding
    ensures { TellsCountEnd (report_of report.now) progress.now ahead op.now which result }
{
    let calls = progress.calls;
    let cause = Cause::AtEnd { which, calls };
    moment(report, progress, ahead, op, cause)
}

// Whether the run may have had the clock.
fn is_reached(report: &Report, clock: Epoch) -> bool
    ensures { IsTrue result ↔ IsReached (report_of report.now) clock }
{
    report.base_clock <= clock && clock <= report.image_clock
}

// Whether the operation may have found its unit full. There is the more room the later the clock,
// so the earliest clock tells that the caller may have met.
fn may_be_full(report: &Report, progress: &Progress, ahead: Option<u64>, op: &Op) -> Finding
    ensures { TellsMayBeFull (report_of report.now) progress.now ahead op.now result }
{
    let clock = first_clock(progress.clock, report.base_clock);
    if clock > report.image_clock {
        return Finding::Wrong;
    }
    let cause = Cause::NeedsMore { clock };
    moment(report, progress, ahead, op, cause)
}

// The clock that a caller knows, or the base clock where that is greater.
fn first_clock(known: Option<Epoch>, base: Epoch) -> Epoch
    ensures { result ≡ first_clock known base }
{
    match known {
        Some(clock) => clock.max(base),
        None => base,
    }
}

// Whether the operation's unit is that one, and the other caller was cut in it.
fn is_halted(report: &Report, op: &Op, unit: Unit, by: u64) -> bool
    requires { AllCutsLast (report_of report.now) }
    ensures { IsTrue result ↔ IsHalted (report_of report.now) op.now unit by }
{
    op.unit(report.layout) == Some(unit) && was_cut_in(report, by, unit)
}

// Whether the job stops the caller, and the operation's unit is that one.
fn may_be_cut_in(job: &Job, report: &Report, caller: u64, op: &Op, unit: Unit) -> bool
    ensures { IsTrue result
        ↔ (HasStop job.now caller × (unit_of_op report.now.layout op.now ≡ Some unit)) }
{
    has_stop(job, caller) && op.unit(report.layout) == Some(unit)
}

// Whether a tick or a sync may have ended so, without its clock.
fn ends_wait(job: &Job, report: &Report, caller: u64, outcome: &Outcome) -> bool
    requires { AllCutsLast (report_of report.now) }
    ensures { IsTrue result
        ↔ EndsWait (report_of report.now) (HasStop job.now caller) outcome.now }
{
    match outcome {
        Outcome::Stuck { unit, epoch } => is_stuck(report, *unit, *epoch),
        Outcome::ClockEnd => report.image_clock == LAST,
        Outcome::Cut => has_stop(job, caller),
        _ => false,
    }
}

// Whether some caller was cut in the unit, and the clock passed the epoch.
fn is_stuck(report: &Report, unit: Unit, epoch: Epoch) -> bool
    requires { AllCutsLast (report_of report.now) }
    ensures { IsTrue result ↔ IsStuck (report_of report.now) unit epoch }
{
    epoch < report.image_clock && is_cut_by_any(report, unit)
}

fn is_cut_by_any(report: &Report, unit: Unit) -> bool
    requires { AllCutsLast (report_of report.now) }
    ensures { IsTrue result ↔ ((by : ℕ) × WasCutIn (report_of report.now) by unit) }
{
    for by in 0..report.outcomes.len() {
        if was_cut_in(report, by, unit) {
            return true;
        }
    }
    false
}

// Whether the job stops the caller.
fn has_stop(job: &Job, caller: u64) -> bool
    ensures { IsTrue result ↔ HasStop job.now caller }
{
    job.stops.as_slice().iter().any(|stop| stop.who == caller)
}
