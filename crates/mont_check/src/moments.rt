// The moments of calls: what is asked of them, and what is found of a line before they are asked.
ghost use Rattle.std.specs.Prelude.{◌≡◌, ◌↔◌, ◌<◌, ◌++◌, ℕ, IsTrue, OnOk};
ghost use Rattle.job_text.specs.PlainReport.{report_of};
ghost use Rattle.mont_check.specs.Bounds.{IsAtLeast};
ghost use Rattle.mont_check.specs.LineAnswers.{TellsMoment};
ghost use Rattle.mont_check.specs.Moments.{IsWithin, TellsRight, is_wrong, questions_in};

use crate::cause::{Case, Cause};
use crate::progress::{Progress, is_below};
use job_text::Report;
use mont_base::{Op, Unit};
use std::alloc::AllocError;

/// The places of a caller in a unit before a call and after it, between which the call was made.
#[derive(Clone, Copy, Debug, PartialEq, Eq)]
pub struct Span {
    /// The last place before.
    pub behind: Option<u64>,
    /// The first place after.
    pub ahead: Option<u64>,
}

impl Span {
    /// Whether the call may have been made after so many entries of the unit.
    pub fn allows(&self, entries: u64) -> bool
        ensures { IsTrue result ↔ IsWithin self.now entries }
    {
        is_below(self.behind, entries) && is_at_least(self.ahead, entries)
    }

    /// The fewest entries that it may allow.
    pub fn first(&self) -> u64
        ensures { (n : ℕ) → n < result → ¬ IsWithin self.now n }
    {
        match self.behind {
            Some(place) => place.saturating_add(1),
            None => 0,
        }
    }
}

// Whether a number is at least the bound, if there is one.
fn is_at_least(number: Option<u64>, bound: u64) -> bool
    ensures { IsTrue result ↔ IsAtLeast number bound }
{
    match number {
        Some(number) => number >= bound,
        None => true,
    }
}

/// Whether the cause held at some moment of the unit that the span allows.
#[derive(Clone, Copy, Debug, PartialEq, Eq)]
pub struct Question {
    pub unit: Unit,
    pub span: Span,
    pub case: Case,
}

/// What is found of the answer to a line before any moment is looked for.
#[derive(Clone, Copy, Debug, PartialEq, Eq)]
pub enum Finding {
    Right,
    Wrong,
    /// It is right where the answer to the question is yes.
    Asks { question: Question },
}

impl Finding {
    /// What is found where nothing has to be asked.
    pub fn told(right: bool) -> Finding
        ensures { TellsRight right result }
    {
        if right {
            Finding::Right
        } else {
            Finding::Wrong
        }
    }

    /// Adds the question that has to be asked, if there is one.
    pub fn ask(&self, questions: &mut Vec<Question>) -> Result<(), AllocError>
        ensures { OnOk result (questions.new.items ≡ questions.old.items
            ++ questions_in self.now) }
    {
        match self {
            Finding::Asks { question } => questions.extend_from_slice(&[*question]),
            Finding::Right | Finding::Wrong => Ok(()),
        }
    }

    /// Whether the line isn't answered.
    pub fn is_wrong(&self) -> bool
        ensures { result ≡ is_wrong self.now }
    {
        matches!(self, Finding::Wrong)
    }
}

/// What has to be asked for the operation of a line to have a moment at which the cause held:
/// between what its caller did before, as its progress tells, and the first place ahead of it.
pub fn moment(
    report: &Report,
    progress: &Progress,
    ahead: Option<u64>,
    op: &Op,
    cause: Cause,
) -> Finding
    ensures { TellsMoment (report_of report.now) progress.now ahead op.now cause result }
{
    let Some(unit) = op.unit(report.layout) else {
        return Finding::Wrong;
    };
    let span = Span {
        behind: progress.last_place(unit),
        ahead,
    };
    let case = Case {
        op: *op,
        slots: report.layout.slots(),
        cause,
    };
    let question = Question { unit, span, case };
    Finding::Asks { question }
}
