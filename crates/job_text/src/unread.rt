// The lines of a text that are still to be read.
ghost use Rattle.std.specs.Prelude.{◌≡◌, ◌≢◌, ◌+◌, [], map, MatchResult};
ghost use Rattle.job_text.specs.declared.report_refusal.ReportRefusal.TheVariants.{Text};
ghost use Rattle.job_text.specs.Readings.{TakesLine, HasNoLine, TakesRow, HasNoRow};

use crate::report_refusal::ReportRefusal;
use crate::split::split_once;
use crate::split_words::{MOST_WORDS, words};
use arrayvec::ArrayVec;
use std::marker::Model;

/// What is still to be read of a text, and how many lines were taken.
#[derive(Drop)]
pub struct Unread<'a> {
    bytes: &'a [u8],
    taken: u64,
}

impl<'a> Model for Unread<'a> {
    ghost use Rattle.std.specs.Prelude.{◌+◌, ◌^◌, ◌<◌, length};
    ghost use Rattle.job_text.specs.Readings.{Unread};

    ghost Value = { Unread };

    ghost view = { λ u. record { bytes = u.bytes.now; taken = u.taken } };

    ghost invariant = { λ u. u.taken + length u.bytes.now < 2 ^ 63 };
}

impl<'a> Unread<'a> {
    /// The whole of a text.
    pub fn of(bytes: &'a [u8]) -> Self
        ensures { result ≡ record { bytes = bytes.now; taken = 0 } }
    {
        Unread { bytes, taken: 0 }
    }

    /// The next line, without its line feed.
    pub fn line(&mut self) -> Result<&'a [u8], ReportRefusal>
        ensures { MatchResult result (λ line. TakesLine self.old self.new line.now)
            (λ e. HasNoLine self.old e) }
    {
        let Some((line, after)) = split_once(self.bytes, b'\n') else {
            return Err(ReportRefusal::Text {
                line: self.taken + 1,
            });
        };
        self.bytes = after;
        self.taken += 1;
        Ok(line)
    }

    /// The words of the next line.
    pub fn words(&mut self) -> Result<ArrayVec<&'a [u8], MOST_WORDS>, ReportRefusal>
        ensures { MatchResult result
            (λ words. TakesRow self.old self.new (map (λ word. word.now) words.items))
            (λ e. HasNoRow self.old e) }
    {
        let line = self.line()?;
        match words(line) {
            Some(words) => Ok(words),
            None => Err(self.refused()),
        }
    }

    /// The refusal of the line that was taken last.
    pub fn refused(&self) -> ReportRefusal
        ensures { result ≡ Text self.now.taken }
    {
        ReportRefusal::Text { line: self.taken }
    }

    /// Refuses what follows, if anything does.
    pub fn finish(&self) -> Result<(), ReportRefusal>
        ensures { MatchResult result (λ _. self.now.bytes ≡ [])
            (λ e. (self.now.bytes ≢ []) × (e ≡ Text (self.now.taken + 1))) }
    {
        if self.bytes.is_empty() {
            Ok(())
        } else {
            Err(ReportRefusal::Text {
                line: self.taken + 1,
            })
        }
    }
}
