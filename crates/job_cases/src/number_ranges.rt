// A table by rising numbers, in which a range of numbers with the same line stands once.
use std::alloc::{AllocError, Global};

/// The table of these lines, the first of which is that of this number.
pub fn in_ranges(alloc: Global, first: u64, lines: &str) -> Result<String, AllocError> {
    let mut table = String::new(alloc);
    let (mut from, mut number, mut same) = (first, first, "");
    for line in lines.lines() {
        if line != same {
            push_range(&mut table, from, number, same)?;
            (from, same) = (number, line);
        }
        number = number.saturating_add(1);
    }
    push_range(&mut table, from, number, same)?;
    Ok(table)
}

// Adds the line of the numbers from the first to the one before the last, unless there are none.
fn push_range(table: &mut String, first: u64, behind: u64, line: &str) -> Result<(), AllocError> {
    let last = behind.saturating_sub(1);
    if first < last {
        writeln!(table, "{first} to {last}: {line}")
    } else if first < behind {
        writeln!(table, "{first}: {line}")
    } else {
        Ok(())
    }
}
