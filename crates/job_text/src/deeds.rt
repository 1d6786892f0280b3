// What the lines of a job ask.
ghost use Rattle.std.specs.Prelude.{◌≡◌, ◌≢◌, map, MatchOption};
ghost use Rattle.job_text.specs.declared.job.Deed.{Deed};
ghost use Rattle.job_text.specs.declared.job.Line.{Line};
ghost use Rattle.job_text.specs.Lines.{spaced};
ghost use Rattle.job_text.specs.Operations.{IsNumber};
ghost use Rattle.job_text.specs.Grammar.{IsAsked};
ghost use Rattle.job_text.specs.JobText.{deed_words, line_words};

use crate::job::{Deed, Line};
use crate::number_words::number;
use crate::operations::read_op;
use crate::spelling::OpWords;
use crate::split_words::{JOB_WORDS, words};
use std::fmt;

/// What words ask, whether or not there is a unit for it.
fn deed(words: &[&[u8]]) -> Option<Deed>
    ensures { MatchOption result
        ((d : Deed) → IsAsked d → map (λ word. word.now) words.now ≢ deed_words d)
        (λ d. IsAsked d × (map (λ word. word.now) words.now ≡ deed_words d)) }
{
    if let [word] = words {
        if *word == b"tick".as_slice() {
            return Some(Deed::Tick);
        }
        if *word == b"sync".as_slice() {
            return Some(Deed::Sync);
        }
    }
    Some(Deed::Call {
        op: read_op(words)?,
    })
}

/// The line that bytes spell, whether or not it may stand in a job.
pub fn read_line(bytes: &[u8]) -> Option<Line>
    ensures { MatchOption result
        ((l : Line) → IsNumber l.caller → IsAsked l.deed → bytes.now ≢ spaced (line_words l))
        (λ l. IsNumber l.caller × IsAsked l.deed × (bytes.now ≡ spaced (line_words l))) }
{
    let words = words::<JOB_WORDS>(bytes)?;
    let (caller, asked) = words.as_slice().split_first()?;
    Some(Line {
        caller: number(caller)?,
        deed: deed(asked)?,
    })
}

impl fmt::Display for Deed {
    ghost use Rattle.std.specs.Prelude.{Some};
    ghost use Rattle.job_text.specs.Lines.{spaced};
    ghost use Rattle.job_text.specs.JobText.{deed_words};

    ghost output = { λ deed. Some (spaced (deed_words deed)) };

    fn fmt<W: fmt::Write>(&self, f: &mut fmt::Formatter<W>) -> fmt::Result {
        match self {
            Deed::Call { op } => write!(f, "{}", OpWords(op)),
            Deed::Tick => write!(f, "tick"),
            Deed::Sync => write!(f, "sync"),
        }
    }
}

impl fmt::Display for Line {
    ghost use Rattle.std.specs.Prelude.{Some};
    ghost use Rattle.job_text.specs.Lines.{spaced};
    ghost use Rattle.job_text.specs.JobText.{line_words};

    ghost output = { λ line. Some (spaced (line_words line)) };

    fn fmt<W: fmt::Write>(&self, f: &mut fmt::Formatter<W>) -> fmt::Result {
        let Line { caller, deed } = self;
        write!(f, "{caller} {deed}")
    }
}
