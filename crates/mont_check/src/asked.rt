// A question that was made ready to be asked along a unit's history.
ghost use Rattle.std.specs.Prelude.{◌↔◌, IsTrue, IfOk};
ghost use Rattle.mont_check.specs.Questions.{EndsBy, TellsFits};
ghost use Rattle.mont_check.specs.Walk.{facts_of};

use crate::moments::Question;
use crate::opened_numbers::Opening;
use crate::walk::Walk;
use std::alloc::{AllocError, Global};

/// A question with what a history tells of it.
#[derive(Clone, Copy, Debug, PartialEq, Eq)]
pub struct Asked {
    pub question: Question,
    /// The slots that the history retired and that are closed at the clock of the cause.
    pub closed: u64,
    /// The first point at which the answer may be yes.
    pub start: u64,
}

impl Asked {
    /// Whether the cause held after the entries that a walk has passed, and the span allows them.
    pub fn fits(&self, alloc: Global, opening: &Opening, walk: &Walk) -> Result<bool, AllocError>
        ensures { IfOk result (TellsFits self.now opening.now (facts_of walk.now)) }
    {
        let question = &self.question;
        if !question.span.allows(walk.entries) {
            return Ok(false);
        }
        question.case.holds(alloc, opening, walk, self.closed)
    }

    /// Whether the span ends by the point.
    pub fn ends_by(&self, point: u64) -> bool
        ensures { IsTrue result ↔ EndsBy point self.now }
    {
        match self.question.span.ahead {
            Some(last) => last <= point,
            None => false,
        }
    }
}
