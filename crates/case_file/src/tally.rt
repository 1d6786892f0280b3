// What came of the cases that were tried.
use crate::case::Case;
use crate::wanted::{is_wanted, said};
use anyhow::{Result, anyhow};
use std::fmt::Display;
use std::process::ExitCode;
use std::result;

/// How many cases were tried, and of how many came what isn't wanted.
#[derive(Clone, Copy)]
pub struct Tally {
    tried: u64,
    differing: u64,
}

impl Tally {
    /// Of no case.
    pub fn new() -> Tally {
        Tally {
            tried: 0,
            differing: 0,
        }
    }

    /// Takes what came of a case, and prints its line. One of which nothing came ends the trial.
    pub fn take<R: Print + AllocGlobal, E: Display + Drop>(
        &mut self,
        rt: &R,
        case: &Case,
        got: result::Result<Vec<u8>, E>,
    ) -> Result<()> {
        match got {
            Ok(got) => self.add(rt, case, got.as_slice()),
            Err(why) => {
                let name = case.name.as_str();
                Err(anyhow!("{name}: {why}"))
            }
        }
    }

    fn add<R: Print + AllocGlobal>(&mut self, rt: &R, case: &Case, got: &[u8]) -> Result<()> {
        self.tried = self.tried.saturating_add(1);
        if !is_wanted(case, got) {
            self.differing = self.differing.saturating_add(1);
        }
        let line = said(rt.alloc(), case, got)?;
        println!(rt; "{line}")?;
        Ok(())
    }

    /// Prints how many cases there were. The exit status is 0 where of each came what is wanted.
    pub fn end<R: Print>(&self, rt: &R) -> Result<ExitCode> {
        let Tally { tried, differing } = *self;
        println!(rt; "{tried} cases, {differing} of which came to what isn't wanted")?;
        if differing == 0 {
            Ok(ExitCode::SUCCESS)
        } else {
            Ok(ExitCode::FAILURE)
        }
    }
}
