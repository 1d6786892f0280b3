// Stop lines.
ghost use Rattle.std.specs.Prelude.{◌≡◌, ◌≢◌, ◌↔◌, IsTrue, MatchOption};
ghost use Rattle.job_text.specs.declared.job.Stop.{Stop};
ghost use Rattle.job_text.specs.Lines.{spaced};
ghost use Rattle.job_text.specs.Operations.{IsNumber};
ghost use Rattle.job_text.specs.JobText.{BeginsStop, stop_words};

use crate::job::Stop;
use crate::number_words::numbers;
use crate::split::split_once;
use crate::split_words::{JOB_WORDS, words};
use std::fmt;

/// Whether the first word of a line is `stop`.
pub fn begins_stop(line: &[u8]) -> bool
    ensures { IsTrue result ↔ BeginsStop line.now }
{
    let word = match split_once(line, b' ') {
        Some((word, _)) => word,
        None => line,
    };
    word == b"stop".as_slice()
}

/// The stop that a line spells, whether or not it may stand in a job.
pub fn read_stop(line: &[u8]) -> Option<Stop>
    ensures { MatchOption result
        ((s : Stop) → IsNumber s.who → IsNumber s.steps → line.now ≢ spaced (stop_words s))
        (λ s. IsNumber s.who × IsNumber s.steps × (line.now ≡ spaced (stop_words s))) }
{
    let words = words::<JOB_WORDS>(line.strip_prefix(b"stop ")?)?;
    let [who, steps] = numbers::<2>(words.as_slice())?;
    Some(Stop { who, steps })
}

impl fmt::Display for Stop {
    ghost use Rattle.std.specs.Prelude.{Some};
    ghost use Rattle.job_text.specs.Lines.{spaced};
    ghost use Rattle.job_text.specs.JobText.{stop_words};

    ghost output = { λ stop. Some (spaced (stop_words stop)) };

    fn fmt<W: fmt::Write>(&self, f: &mut fmt::Formatter<W>) -> fmt::Result {
        let Stop { who, steps } = self;
        write!(f, "stop {who} {steps}")
    }
}
