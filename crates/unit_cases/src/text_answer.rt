// What is told of texts, which are keys and values.
use crate::case_rows::{line_of, numbers_of, rows_in};
use case_file::{Case, Unanswered};
use mont_base::Text;
use std::alloc::{AllocError, Global};
use std::cmp::Ordering;

/// The words of the text of the part `bytes`, the texts of the rows of four words in the part
/// `words`, those of the digits of the part `numbers`, and whether the texts of the part `rising`,
/// one a line, stand in this order.
pub fn tell_texts(answer: &mut String, alloc: Global, case: &Case) -> Result<(), Unanswered> {
    if let Some(bytes) = case.part("bytes") {
        match Text::of_bytes(line_of(bytes)) {
            Ok(text) => tell_words(answer, text)?,
            Err(_) => writeln!(answer, "too long")?,
        }
    }
    if let Some(words) = case.part("words") {
        for row in &rows_in(alloc, "words", words)? {
            tell_text(answer, row)?;
        }
    }
    for number in &numbers_of(alloc, case, "numbers")? {
        tell_bytes(answer, Text::of_number(*number))?;
    }
    if let Some(lines) = case.part("rising") {
        let texts = texts_in(alloc, line_of(lines))?;
        tell_order(answer, &texts)?;
    }
    Ok(())
}

// The words of a text, and whether it is read back from them.
fn tell_words(answer: &mut String, text: Text) -> Result<(), AllocError> {
    let words = text.words();
    let [len, first, second, third] = words;
    write!(answer, "{len} {first:#x} {second:#x} {third:#x}")?;
    if Text::of_words(words) != Some(text) {
        write!(answer, ", which is another text")?;
    }
    if text.is_empty() && text == Text::empty() {
        write!(answer, ", empty")?;
    }
    writeln!(answer)?;
    tell_bytes(answer, text)
}

// The text of four words.
fn tell_text(answer: &mut String, row: &[u64]) -> Result<(), Unanswered> {
    let [len, first, second, third] = row else {
        return Err(Unanswered::Unclear { head: "words" });
    };
    match Text::of_words([*len, *first, *second, *third]) {
        Some(text) => tell_bytes(answer, text)?,
        None => writeln!(answer, "no text")?,
    }
    Ok(())
}

// The bytes of a text one by one.
fn tell_bytes(answer: &mut String, text: Text) -> Result<(), AllocError> {
    write!(answer, "bytes")?;
    for at in 0..text.len() {
        let byte = text.byte(at);
        write!(answer, " {byte}")?;
    }
    writeln!(answer)
}

fn texts_in(alloc: Global, lines: &[u8]) -> Result<Vec<Text>, Unanswered> {
    let mut texts = Vec::new(alloc);
    for line in lines.split(|byte| *byte == b'\n') {
        match Text::of_bytes(line) {
            Ok(text) => texts.push(text)?,
            Err(_) => return Err(Unanswered::Unclear { head: "rising" }),
        }
    }
    Ok(texts)
}

// Each two of the texts that don't compare as their places do, and how many there are.
fn tell_order(answer: &mut String, texts: &[Text]) -> Result<(), AllocError> {
    for (place, text) in texts.iter().enumerate() {
        for (other, another) in texts.iter().enumerate() {
            if !compare_as(text, another, place.cmp(&other)) {
                writeln!(answer, "text {place} stands wrongly to text {other}")?;
            }
        }
    }
    let count = texts.len();
    writeln!(answer, "{count} texts by each other")
}

// Whether two texts are ordered so, by each of their comparisons.
fn compare_as(a: &Text, b: &Text, order: Ordering) -> bool {
    a.cmp(b) == order
        && (a == b) == (order == Ordering::Equal)
        && (a < b) == (order == Ordering::Less)
}
