// The numbers of a line.
use crate::line_fault::LineFault;

/// No line has more numbers.
pub const MOST: usize = 20;

/// The numbers that stand with a space between them, and zeros after the last.
pub fn numbers_of(words: &str) -> Result<[u64; MOST], LineFault> {
    let mut numbers = [0; MOST];
    if words.is_empty() {
        return Ok(numbers);
    }
    for (at, word) in words.split(' ').enumerate() {
        let Ok(number) = word.parse() else {
            return Err(LineFault::Unclear);
        };
        if at >= MOST {
            return Err(LineFault::Unclear);
        }
        numbers[at] = number;
    }
    Ok(numbers)
}

/// The first word of a line, and what stands after it.
pub fn first_word(line: &str) -> (&str, &str) {
    line.split_once(' ').unwrap_or((line, ""))
}
