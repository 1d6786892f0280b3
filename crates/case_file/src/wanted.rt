// Whether what came of a case is what is wanted, and how that is told.
ghost use Rattle.std.specs.Prelude.{◌≡◌, ◌↔◌, ◌++◌, ℕ, List, IsTrue, IfOk, codes, string_bytes};
ghost use Rattle.case_file.specs.Wanted.{Wants, IsWanted};

use crate::case::{Case, Part};
use std::alloc::{AllocError, Global};

/// The head of the parts that say what is to come of a case.
pub const WANTED: &str = "wanted";

// Whether a part says that this text is wanted.
fn wants(part: &Part, got: &[u8]) -> bool
    ensures { IsTrue result ↔ Wants got.now part.now }
{
    part.head.as_str() == WANTED && part.text.as_slice() == got
}

/// Whether one of the parts `wanted` has this text.
pub fn is_wanted(case: &Case, got: &[u8]) -> bool
    ensures { IsTrue result ↔ IsWanted case.now got.now }
{
    for part in &case.parts {
        if wants(part, got) {
            return true;
        }
    }
    false
}

/// A line on what came of a case: its name and `ok`, or where the text first differs from the one
/// that is wanted.
pub fn said(alloc: Global, case: &Case, got: &[u8]) -> Result<String, AllocError>
    ensures { IfOk result (λ line. (string_bytes line ≡ string_bytes case.now.name ++ codes ": ok")
        ↔ IsWanted case.now got.now) }
{
    if is_wanted(case, got) {
        let name = case.name.as_str();
        format!(in alloc; "{name}: ok")
    } else {
        said_apart(alloc, case, got)
    }
}

// Where the text differs from the one that is wanted.
fn said_apart(alloc: Global, case: &Case, got: &[u8]) -> Result<String, AllocError>
    ensures { IfOk result (λ line. (rest : List ℕ)
        × (string_bytes line ≡ string_bytes case.now.name ++ (codes ": line " ++ rest))) }
{
    let wanted = case.part(WANTED).unwrap_or(b"");
    let (number, own, other) = first_difference(wanted, got);
    let own = String::from_utf8_lossy(alloc, own)?;
    let other = String::from_utf8_lossy(alloc, other)?;
    let difference = format!(in alloc; "{number} is `{other}`, and `{own}` is wanted")?;
    let name = case.name.as_str();
    format!(in alloc; "{name}: line {difference}")
}

// The first line at which two texts differ, counted from 1, and what each has there.
fn first_difference<'a>(one: &'a [u8], other: &'a [u8]) -> (u64, &'a [u8], &'a [u8]) {
    let mut others = other.split(|byte| *byte == b'\n');
    let mut number = 0u64;
    for line in one.split(|byte| *byte == b'\n') {
        number = number.saturating_add(1);
        match others.next() {
            Some(own) if own == line => {}
            Some(own) => return (number, line, own),
            None => return (number, line, b""),
        }
    }
    (number.saturating_add(1), b"", others.next().unwrap_or(b""))
}
