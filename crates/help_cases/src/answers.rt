// The sentence that comes of a case.
use case_file::{Case, Subject, Unanswered};
use refusal_help::{job_sentence, schedule_sentence, words_sentence};
use std::alloc::{AllocError, Global};

/// Answers cases on a line of a job (the part `line`, after the lines of the part `job`), of a
/// schedule (after those of the part `schedule`), or on words of the command line (the part
/// `words`, one a line).
#[derive(Drop)]
pub struct HelpCases {
    pub alloc: Global,
}

impl Subject for HelpCases {
    fn answer(&self, case: &Case) -> Result<Vec<u8>, Unanswered> {
        let mut sentence = sentence_on(self.alloc, case)?;
        sentence.push_str("\n")?;
        Ok(sentence.into_bytes())
    }
}

fn sentence_on(alloc: Global, case: &Case) -> Result<String, Unanswered> {
    if let Some(words) = case.part("words") {
        let words = words_in(alloc, words)?;
        return Ok(words_sentence(alloc, words.as_slice())?);
    }
    let line = case.needed("line")?;
    if let Some(front) = case.part("schedule") {
        let text = joined(alloc, front, line)?;
        return Ok(schedule_sentence(alloc, text.as_slice(), number_behind(front))?);
    }
    let front = case.needed("job")?;
    let text = joined(alloc, front, line)?;
    Ok(job_sentence(alloc, text.as_slice(), number_behind(front))?)
}

// A text and what follows it.
fn joined(alloc: Global, front: &[u8], line: &[u8]) -> Result<Vec<u8>, AllocError> {
    let mut text = Vec::new(alloc);
    text.extend_from_slice(front)?;
    text.extend_from_slice(line)?;
    Ok(text)
}

// The number of the line after a text.
fn number_behind(front: &[u8]) -> u64 {
    let mut number = 1u64;
    for byte in front {
        if *byte == b'\n' {
            number = number.saturating_add(1);
        }
    }
    number
}

// The lines of a text, each of which is a word. An empty text has none.
fn words_in(alloc: Global, text: &[u8]) -> Result<Vec<String>, AllocError> {
    let mut words = Vec::new(alloc);
    if let [front @ .., b'\n'] = text {
        for word in front.split(|byte| *byte == b'\n') {
            words.push(String::from_utf8_lossy(alloc, word)?)?;
        }
    }
    Ok(words)
}
