// What a line of a file of cases is.

/// A line: `== NAME` begins a case, `-- as NAME` takes over the parts of an earlier one, `-- HEAD`
/// begins a part. An empty line and one that begins with `#` stand for nothing. Each other line is
/// one of the text of the part before it.
#[derive(Clone, Copy)]
pub enum Row<'a> {
    Nothing,
    Case { name: &'a [u8] },
    As { name: &'a [u8] },
    Head { head: &'a [u8] },
    Text { line: &'a [u8] },
}

/// What a line is.
pub fn row_of(line: &[u8]) -> Row<'_> {
    match line {
        [] | [b'#', ..] => Row::Nothing,
        [b'=', b'=', b' ', name @ ..] => Row::Case { name },
        [b'-', b'-', b' ', b'a', b's', b' ', name @ ..] => Row::As { name },
        [b'-', b'-', b' ', head @ ..] => Row::Head { head },
        _ => Row::Text { line },
    }
}
