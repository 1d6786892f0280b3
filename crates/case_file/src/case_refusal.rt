// Why a file of cases isn't read, and why a case isn't tried.
use std::alloc::{AllocError, AllocFailed};
use std::fmt;

/// What is wrong with a line of a file of cases.
#[derive(Clone, Copy, Debug, PartialEq, Eq)]
pub enum CaseFault {
    /// A part before the first case.
    NoCase,
    /// A line of text before the first part of its case.
    NoPart,
    /// A name or a head that isn't UTF-8.
    Name,
    /// A name that an earlier case has.
    Twice,
    /// A case that takes the parts of one that doesn't stand before it.
    Unknown,
    /// A backslash that begins nothing.
    Escape,
    /// There was too little memory.
    Memory,
}

/// The first line, counted from 1, that has a fault.
#[derive(Clone, Copy, Debug, PartialEq, Eq)]
pub struct CaseRefusal {
    pub line: u64,
    pub fault: CaseFault,
}

/// Why a case has no answer.
#[derive(Clone, Copy, Debug, PartialEq, Eq)]
pub enum Unanswered {
    /// It lacks a part.
    Lacks { head: &'static str },
    /// A part doesn't say what it is to.
    Unclear { head: &'static str },
    /// There was too little memory.
    Memory,
}

impl fmt::Display for CaseFault {
    fn fmt<W: fmt::Write>(&self, f: &mut fmt::Formatter<W>) -> fmt::Result {
        match self {
            CaseFault::NoCase => write!(f, "no case stands before this part"),
            CaseFault::NoPart => write!(f, "no part stands before this text"),
            CaseFault::Name => write!(f, "this name isn't UTF-8"),
            CaseFault::Twice => write!(f, "an earlier case has this name"),
            CaseFault::Unknown => write!(f, "no earlier case has this name"),
            CaseFault::Escape => write!(f, "a backslash begins nothing here"),
            CaseFault::Memory => write!(f, "out of memory"),
        }
    }
}

impl fmt::Display for Unanswered {
    fn fmt<W: fmt::Write>(&self, f: &mut fmt::Formatter<W>) -> fmt::Result {
        match self {
            Unanswered::Lacks { head } => write!(f, "it has no part `{head}`"),
            Unanswered::Unclear { head } => write!(f, "its part `{head}` isn't clear"),
            Unanswered::Memory => write!(f, "out of memory"),
        }
    }
}

impl From<AllocError> for CaseFault {
    fn from(_error: AllocError) -> CaseFault {
        CaseFault::Memory
    }
}

impl<T: Drop> From<AllocFailed<T>> for CaseFault {
    fn from(_error: AllocFailed<T>) -> CaseFault {
        CaseFault::Memory
    }
}

impl From<AllocError> for Unanswered {
    fn from(_error: AllocError) -> Unanswered {
        Unanswered::Memory
    }
}

impl<T: Drop> From<AllocFailed<T>> for Unanswered {
    fn from(_error: AllocFailed<T>) -> Unanswered {
        Unanswered::Memory
    }
}
