// Cases from the text of a file.
use crate::case::{Case, Part};
use crate::case_refusal::{CaseFault, CaseRefusal};
use crate::escapes::push_line;
use crate::row::{Row, row_of};
use crate::wanted::WANTED;
use std::alloc::Global;
use std::str;

/// The cases of a file, in its order.
pub fn read_cases(alloc: Global, text: &[u8]) -> Result<Vec<Case>, CaseRefusal> {
    let mut cases = Vec::new(alloc);
    let mut line = 0u64;
    for bytes in text.split(|byte| *byte == b'\n') {
        line = line.saturating_add(1);
        match add_row(alloc, &mut cases, row_of(bytes)) {
            Ok(()) => {}
            Err(fault) => return Err(CaseRefusal { line, fault }),
        }
    }
    Ok(cases)
}

// Adds what a line is to the cases before it.
fn add_row(alloc: Global, cases: &mut Vec<Case>, row: Row<'_>) -> Result<(), CaseFault> {
    match row {
        Row::Nothing => Ok(()),
        Row::Case { name } => add_case(alloc, cases, name),
        Row::As { name } => add_parts(alloc, cases, name),
        Row::Head { head } => add_part(alloc, cases, head),
        Row::Text { line } => add_text(cases, line),
    }
}

// Begins a case.
fn add_case(alloc: Global, cases: &mut Vec<Case>, name: &[u8]) -> Result<(), CaseFault> {
    let name = named(alloc, name)?;
    if cases
        .iter()
        .any(|earlier| earlier.name.as_str() == name.as_str())
    {
        return Err(CaseFault::Twice);
    }
    let parts = Vec::new(alloc);
    cases.push(Case { name, parts })?;
    Ok(())
}

// Takes over the parts of an earlier case, but for those that say what is wanted.
fn add_parts(alloc: Global, cases: &mut Vec<Case>, name: &[u8]) -> Result<(), CaseFault> {
    let name = named(alloc, name)?;
    let Some((last, earlier)) = cases.as_mut_slice().split_last_mut() else {
        return Err(CaseFault::NoCase);
    };
    for case in earlier.iter() {
        if case.name.as_str() == name.as_str() {
            return take_over(alloc, last, case);
        }
    }
    Err(CaseFault::Unknown)
}

fn take_over(alloc: Global, case: &mut Case, earlier: &Case) -> Result<(), CaseFault> {
    for part in &earlier.parts {
        if part.head.as_str() != WANTED {
            let head = String::from_str(alloc, part.head.as_str())?;
            let text = part.text.as_slice().to_vec(alloc)?;
            case.parts.push(Part { head, text })?;
        }
    }
    Ok(())
}

// Begins a part of the last case.
fn add_part(alloc: Global, cases: &mut Vec<Case>, head: &[u8]) -> Result<(), CaseFault> {
    let head = named(alloc, head)?;
    let Some(case) = cases.last_mut() else {
        return Err(CaseFault::NoCase);
    };
    let text = Vec::new(alloc);
    case.parts.push(Part { head, text })?;
    Ok(())
}

// Adds a line to the text of the last part.
fn add_text(cases: &mut Vec<Case>, line: &[u8]) -> Result<(), CaseFault> {
    let Some(case) = cases.last_mut() else {
        return Err(CaseFault::NoCase);
    };
    let Some(part) = case.parts.last_mut() else {
        return Err(CaseFault::NoPart);
    };
    push_line(&mut part.text, line)
}

// A name or a head.
fn named(alloc: Global, bytes: &[u8]) -> Result<String, CaseFault> {
    match str::from_utf8(bytes) {
        Ok(name) => Ok(String::from_str(alloc, name)?),
        Err(_) => Err(CaseFault::Name),
    }
}
