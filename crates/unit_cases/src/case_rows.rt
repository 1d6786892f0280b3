// Numbers and letters in the parts of cases.
use case_file::{Case, Unanswered, number_in, numbers_in};
use mont_base::{Kinds, LEAST_SLOTS, Layout};
use std::alloc::Global;

/// The numbers of each line of a part. A line without numbers is no row.
pub fn rows_in(
    alloc: Global,
    head: &'static str,
    text: &[u8],
) -> Result<Vec<Vec<u64>>, Unanswered> {
    let mut rows = Vec::new(alloc);
    for line in text.split(|byte| *byte == b'\n') {
        let row = numbers_in(alloc, head, line)?;
        if !row.is_empty() {
            rows.push(row)?;
        }
    }
    Ok(rows)
}

/// The numbers of a part, which are none where it isn't there.
pub fn numbers_of(alloc: Global, case: &Case, head: &'static str) -> Result<Vec<u64>, Unanswered> {
    match case.part(head) {
        Some(text) => numbers_in(alloc, head, text),
        None => Ok(Vec::new(alloc)),
    }
}

/// The rows of a part, which are none where it isn't there.
pub fn rows_of(
    alloc: Global,
    case: &Case,
    head: &'static str,
) -> Result<Vec<Vec<u64>>, Unanswered> {
    match case.part(head) {
        Some(text) => rows_in(alloc, head, text),
        None => Ok(Vec::new(alloc)),
    }
}

/// The one number of a part.
pub fn number_of(alloc: Global, case: &Case, head: &'static str) -> Result<u64, Unanswered> {
    number_in(alloc, head, case.needed(head)?)
}

/// A text of one line, without its line feed.
pub fn line_of(text: &[u8]) -> &[u8] {
    match text {
        [line @ .., b'\n'] => line,
        _ => text,
    }
}

/// The layout of the part `kinds`, with so many slots in each unit as the part `slots` says, or
/// with eight.
pub fn layout_of(alloc: Global, case: &Case) -> Result<Layout, Unanswered> {
    let slots = case.number(alloc, "slots")?.unwrap_or(LEAST_SLOTS);
    let Ok(kinds) = Kinds::of_letters(line_of(case.needed("kinds")?)) else {
        return Err(Unanswered::Unclear { head: "kinds" });
    };
    match Layout::new(kinds, slots) {
        Ok(layout) => Ok(layout),
        Err(_) => Err(Unanswered::Unclear { head: "slots" }),
    }
}

/// Whether the part `show` asks for this.
pub fn is_shown(case: &Case, what: &str) -> bool {
    match case.part("show") {
        Some(words) => words
            .split(|byte| *byte == b'\n')
            .any(|word| word == what.as_bytes()),
        None => false,
    }
}
