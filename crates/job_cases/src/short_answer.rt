// An answer that varies from run to run, told in short: what of it doesn't vary.
use case_file::Case;
use std::alloc::{AllocError, Global};
use std::str;

/// The answer as it is where the case has no part `only`. Else only those lines whose first word
/// stands in that part, with `..` for others between them. Where the part `below` has the same
/// first word, and a number above the line's second word, the line says just that.
pub fn in_short(alloc: Global, case: &Case, answer: Vec<u8>) -> Result<Vec<u8>, AllocError> {
    let Some(only) = case.part("only") else {
        return Ok(answer);
    };
    let below = case.part("below").unwrap_or(b"");
    short_of(alloc, text_of(&answer), text_of(only), text_of(below))
}

fn short_of(alloc: Global, answer: &str, only: &str, below: &str) -> Result<Vec<u8>, AllocError> {
    let mut short = String::new(alloc);
    let mut leaves_out = false;
    for line in answer.lines() {
        let is_told = only
            .split_ascii_whitespace()
            .any(|name| name == word(line, 0));
        if is_told {
            push_told(&mut short, line, below)?;
        } else if !leaves_out {
            short.push_str("..\n")?;
        }
        leaves_out = !is_told;
    }
    Ok(short.into_bytes())
}

// Adds a line, or that its number is below another.
fn push_told(short: &mut String, line: &str, below: &str) -> Result<(), AllocError> {
    let (name, most) = (word(below, 0), word(below, 1));
    if name == word(line, 0) && number(word(line, 1)) < number(most) {
        writeln!(short, "{name} below {most}")
    } else {
        writeln!(short, "{line}")
    }
}

// The number that a word spells.
fn number(word: &str) -> u64 {
    word.parse().unwrap_or(u64::MAX)
}

// The word of a line at a place, counted from 0; the empty one where there is none.
fn word(line: &str, place: usize) -> &str {
    line.split_ascii_whitespace().nth(place).unwrap_or("")
}

fn text_of(bytes: &[u8]) -> &str {
    str::from_utf8(bytes).unwrap_or("")
}
