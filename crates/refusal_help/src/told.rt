// The sentences that the program writes beside a line of refusal.
use crate::command_words::command_cause;
use crate::quoted::Quoted;
use crate::text_lines::line_at;
use crate::texts::{job_cause, schedule_cause};
use std::alloc::{AllocError, Global};

/// The sentence on the refused line of this number, counted from 1, of a job's text: the line, and
/// the first thing that is wrong with it. It has no line feed, and is empty where the line may
/// stand.
pub fn job_sentence(alloc: Global, text: &[u8], number: u64) -> Result<String, AllocError> {
    match job_cause(alloc, text, number)? {
        Some(cause) => {
            let line = Quoted(line_at(text, number).bytes);
            format!(in alloc; "job line {number}: {line}: {cause}")
        }
        None => Ok(String::new(alloc)),
    }
}

/// The same of a schedule's text.
pub fn schedule_sentence(alloc: Global, text: &[u8], number: u64) -> Result<String, AllocError> {
    match schedule_cause(alloc, text, number)? {
        Some(cause) => {
            let line = Quoted(line_at(text, number).bytes);
            format!(in alloc; "schedule line {number}: {line}: {cause}")
        }
        None => Ok(String::new(alloc)),
    }
}

/// The sentence on the words after the program's name: the first of them that is wrong, and what
/// may stand there. It has no line feed, and is empty where the words are of a form.
pub fn words_sentence(alloc: Global, words: &[String]) -> Result<String, AllocError> {
    let mut spelled = Vec::new(alloc);
    for word in words {
        spelled.push(word.as_bytes())?;
    }
    match command_cause(alloc, spelled.as_slice())? {
        Some(cause) => format!(in alloc; "the command line: {cause}"),
        None => Ok(String::new(alloc)),
    }
}
