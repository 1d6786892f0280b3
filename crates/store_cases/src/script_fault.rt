// Why a script isn't run to its end.
use case_file::Unanswered;
use std::alloc::{AllocError, AllocFailed};
use std::fmt;
use store::OpenRefusal;

/// What is wrong with a line of a script.
#[derive(Clone, Copy)]
pub enum ScriptFault {
    /// It says nothing.
    Unclear,
    /// It can't stand where it stands.
    Place,
    /// There are no such kinds, slots or callers.
    Setting,
    /// The store has no such caller.
    Caller,
    /// The store has no unit for the operation.
    Operation,
    /// There is no such image, or recovery refuses it.
    Image,
    /// The boxes of the store aren't as they are to be.
    Boxes,
    /// The case lacks a part, or there was too little memory.
    Case { why: Unanswered },
}

/// The line of a script, counted from 1, that has a fault.
#[derive(Clone, Copy)]
pub struct Untold {
    pub line: usize,
    pub fault: ScriptFault,
}

impl fmt::Display for Untold {
    fn fmt<W: fmt::Write>(&self, f: &mut fmt::Formatter<W>) -> fmt::Result {
        write!(f, "line {} of its script: ", self.line)?;
        if let ScriptFault::Case { why } = self.fault {
            return write!(f, "{why}");
        }
        f.write_str(words_of(self.fault))
    }
}

fn words_of(fault: ScriptFault) -> &'static str {
    match fault {
        ScriptFault::Unclear => "this says nothing",
        ScriptFault::Place => "this can't stand here",
        ScriptFault::Setting => "there are no such kinds, slots or callers",
        ScriptFault::Caller => "the store has no such caller",
        ScriptFault::Operation => "the store has no such operation",
        ScriptFault::Image => "recovery refuses the image",
        ScriptFault::Boxes => "a map unit has no empty box",
        ScriptFault::Case { .. } => "",
    }
}

impl From<Unanswered> for ScriptFault {
    fn from(why: Unanswered) -> ScriptFault {
        ScriptFault::Case { why }
    }
}

const MEMORY: ScriptFault = ScriptFault::Case {
    why: Unanswered::Memory,
};

impl From<AllocError> for ScriptFault {
    fn from(_error: AllocError) -> ScriptFault {
        MEMORY
    }
}

impl<T: Drop> From<AllocFailed<T>> for ScriptFault {
    fn from(_error: AllocFailed<T>) -> ScriptFault {
        MEMORY
    }
}

impl From<OpenRefusal> for ScriptFault {
    fn from(refusal: OpenRefusal) -> ScriptFault {
        match refusal {
            OpenRefusal::Index { .. } => ScriptFault::Boxes,
            OpenRefusal::Memory => MEMORY,
        }
    }
}
