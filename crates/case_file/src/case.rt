// A worked case.
use crate::case_numbers::number_in;
use crate::case_refusal::Unanswered;
use std::alloc::Global;

/// A part of a case: what it is, and its text.
#[derive(Debug, Drop)]
pub struct Part {
    pub head: String,
    pub text: Vec<u8>,
}

/// A case: its name, and its parts in the order of the file. Parts `wanted` say what is to come
/// of it.
#[derive(Debug, Drop)]
pub struct Case {
    pub name: String,
    pub parts: Vec<Part>,
}

impl Case {
    /// The text of the last part with this head.
    pub fn part(&self, head: &str) -> Option<&[u8]> {
        let mut text = None;
        for part in &self.parts {
            if part.head.as_str() == head {
                text = Some(part.text.as_slice());
            }
        }
        text
    }

    /// The text of the last part with this head, without which the case asks nothing.
    pub fn needed(&self, head: &'static str) -> Result<&[u8], Unanswered> {
        match self.part(head) {
            Some(text) => Ok(text),
            None => Err(Unanswered::Lacks { head }),
        }
    }

    /// The one number of the last part with this head, if the case has one.
    pub fn number(&self, alloc: Global, head: &'static str) -> Result<Option<u64>, Unanswered> {
        match self.part(head) {
            Some(text) => Ok(Some(number_in(alloc, head, text)?)),
            None => Ok(None),
        }
    }
}
