// A script that is run: how far, and what its stores have left.
use crate::script_fault::ScriptFault;
use crate::script_words::number_in;
use case_file::Case;
use plain::UnitState;
use std::alloc::Global;
use store_stop::Stopped;

/// With what a script is run.
#[derive(Clone, Copy)]
pub struct Run {
    /// How often each box makes room, if it is of this program's own kind.
    pub rooms: u64,
    /// The number of steps for which `each` stands.
    pub each: Option<u64>,
}

/// A script that is run.
#[derive(Drop)]
pub struct Scene<'a> {
    pub alloc: Global,
    pub case: &'a Case,
    pub lines: &'a [&'a str],
    pub run: Run,
    /// How many of its lines were read.
    pub read: usize,
    /// How many callers its stores have.
    pub callers: u64,
    /// The plain structures beside the store.
    pub plain: Vec<UnitState>,
    /// What the last store left.
    pub left: Option<Stopped>,
    /// What is told so far.
    pub told: String,
}

impl<'a> Scene<'a> {
    /// Before its first line.
    pub fn new(alloc: Global, case: &'a Case, lines: &'a [&'a str], run: Run) -> Scene<'a> {
        Scene {
            alloc,
            case,
            lines,
            run,
            read: 0,
            callers: 0,
            plain: Vec::new(alloc),
            left: None,
            told: String::new(alloc),
        }
    }

    /// The lines that weren't read yet.
    pub fn unread(&self) -> &'a [&'a str] {
        self.lines.get(self.read..).unwrap_or(&[])
    }

    /// The number of steps that a word tells. `each` is one only where the script is run with
    /// several.
    pub fn steps(&self, word: &str) -> Result<u64, ScriptFault> {
        if word == "each" {
            self.run.each.ok_or(ScriptFault::Place)
        } else {
            number_in(word)
        }
    }
}
