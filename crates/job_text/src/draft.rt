// A job in the making: what the lines of a text so far spell.
ghost use Rattle.std.specs.Prelude.{◌≡◌, ◌≢◌, ◌<◌, ◌↔◌, [], IsTrue, IfOk, IfErr, MatchOption};
ghost use Rattle.job_text.specs.declared.limits.TheConstants.{MOST_LINES};
ghost use Rattle.job_text.specs.declared.job.Stop.{Stop};
ghost use Rattle.job_text.specs.declared.job.Line.{Line};
ghost use Rattle.job_text.specs.Lines.{spaced};
ghost use Rattle.job_text.specs.Grammar.{HasUnit, IsAsked, IsHead, IsJob, IsLine, job_of};
ghost use Rattle.job_text.specs.JobText.{stop_words, line_words};

use crate::deeds::read_line;
use crate::header::Head;
use crate::job::{Deed, Job, JobFault, Line, Stop};
use crate::job_refusal::JobRefusal;
use crate::limits::MOST_STEPS;
use crate::stops::{begins_stop, read_stop};
use mont_base::{Layout, Sequence};
use std::alloc::{AllocError, Global};

/// What the lines so far spell.
#[derive(Drop)]
pub struct Draft {
    pub head: Head,
    pub stops: Sequence<Stop>,
    pub lines: Sequence<Line>,
}

impl Draft {
    ghost use Rattle.job_text.specs.Draft.{so_far, lines_so_far, MayStop, Adds, IsNotAdded};

    /// The job that a first line alone makes.
    pub fn new(alloc: Global, head: Head) -> Draft
        requires { IsHead head }
        ensures draft { IsJob (so_far result) }
        ensures job { so_far result ≡ job_of head [] [] }
    {
        Draft {
            head,
            stops: Sequence::new(alloc),
            lines: Sequence::new(alloc),
        }
    }

    /// How many lines there are.
    pub fn count(&self) -> u64
        requires { IsJob (so_far self.now) }
        ensures { result ≡ lines_so_far self.now }
    {
        1 + self.stops.len() + self.lines.len()
    }

    /// The draft with the next line. It is refused where no job goes on with it.
    pub fn with(self, bytes: &[u8]) -> Result<Draft, JobRefusal>
        requires draft { IsJob (so_far self) }
        requires early { lines_so_far self < MOST_LINES }
        ensures added { IfOk result (λ new. Adds self new bytes.now) }
        ensures refused { IfErr result (IsNotAdded self bytes.now) }
    {
        let line = self.count() + 1;
        if begins_stop(bytes) {
            match self.next_stop(bytes) {
                Some(stop) => Ok(self.with_stop(stop)?),
                None => Err(JobRefusal::Text {
                    line,
                    fault: JobFault::Stop,
                }),
            }
        } else {
            match self.next_line(bytes) {
                Some(Line { caller, deed }) => Ok(self.with_line(caller, deed)?),
                None => Err(JobRefusal::Text {
                    line,
                    fault: JobFault::Operation,
                }),
            }
        }
    }

    /// The job that the lines so far make.
    pub fn into_job(self) -> Job
        ensures { result ≡ so_far self }
    {
        let Draft { head, stops, lines } = self;
        Job {
            layout: head.layout,
            callers: head.callers,
            attempts: head.attempts,
            mask: head.mask,
            stops,
            lines,
        }
    }

    // The stop that a line spells and that may come next.
    fn next_stop(&self, bytes: &[u8]) -> Option<Stop>
        requires { IsJob (so_far self.now) }
        ensures { MatchOption result
            ((s : Stop) → MayStop self.now s → bytes.now ≢ spaced (stop_words s))
            (λ s. MayStop self.now s × (bytes.now ≡ spaced (stop_words s))) }
    {
        let stop = read_stop(bytes)?;
        if self.takes_stop(&stop) {
            Some(stop)
        } else {
            None
        }
    }

    // Whether a stop may come next.
    fn takes_stop(&self, stop: &Stop) -> bool
        ensures { IsTrue result ↔ MayStop self.now stop.now }
    {
        self.lines.is_empty()
            && stop.who <= self.head.callers
            && stop.steps <= MOST_STEPS
            && self
                .stops
                .as_slice()
                .iter()
                .all(|earlier| earlier.who < stop.who)
    }

    // The line that bytes spell and that may come next.
    fn next_line(&self, bytes: &[u8]) -> Option<Line>
        requires { IsJob (so_far self.now) }
        ensures { MatchOption result
            ((l : Line) → IsLine self.now.head l → bytes.now ≢ spaced (line_words l))
            (λ l. IsLine self.now.head l × (bytes.now ≡ spaced (line_words l))) }
    {
        let line = read_line(bytes)?;
        if self.takes_line(&line) {
            Some(line)
        } else {
            None
        }
    }

    // Whether a line whose words can ask for what it asks may come next.
    fn takes_line(&self, line: &Line) -> bool
        requires { IsAsked line.now.deed }
        ensures { IsTrue result ↔ IsLine self.now.head line.now }
    {
        line.caller < self.head.callers && has_unit(self.head.layout, &line.deed)
    }

    // The draft with a stop that may come next.
    fn with_stop(mut self, stop: Stop) -> Result<Draft, AllocError>
        requires draft { IsJob (so_far self) }
        requires early { lines_so_far self < MOST_LINES }
        requires may { MayStop self stop }
        ensures { IfOk result (λ new. Adds self new (spaced (stop_words stop))) }
    {
        self.stops.push(stop)?;
        Ok(self)
    }

    // The draft with a line that may come next: what a caller asks.
    fn with_line(mut self, caller: u64, deed: Deed) -> Result<Draft, AllocError>
        requires draft { IsJob (so_far self) }
        requires early { lines_so_far self < MOST_LINES }
        requires may { IsLine self.head (record { caller = caller; deed = deed }) }
        ensures { let line : Line = record { caller = caller; deed = deed } in
            IfOk result (λ new. Adds self new (spaced (line_words line))) }
    {
        self.lines.push(Line { caller, deed })?;
        Ok(self)
    }
}

// Whether the layout has a unit for what is asked.
fn has_unit(layout: Layout, deed: &Deed) -> bool
    ensures { IsTrue result ↔ HasUnit layout deed.now }
{
    match deed {
        Deed::Call { op } => op.unit(layout).is_some(),
        Deed::Tick | Deed::Sync => true,
    }
}
