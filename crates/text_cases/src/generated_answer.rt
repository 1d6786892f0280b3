// What is told of what is made of a number: the generated job, the opening of the generated bank
// and the shifts of its callers, and the summary of no run at all.
ghost use Rattle.std.specs.Prelude.{◌<◌};

use bank_job::{CALLERS, bank_layout, opening_puts, shifts_of_caller};
use big_job::{big_job, big_summary};
use case_file::{Case, Unanswered, numbers_in};
use job_text::{Deed, Line, write_job};
use mont_base::Text;
use plain::Contents;
use std::alloc::{AllocError, Global};
use std::str;

/// The lines at the places of the part `lines`, which are counted from 0, and how many there are.
/// The name is `job`, `opening`, `shifts` or `summary`. The part `numbers` has the number that all
/// is made of, and for shifts the caller.
pub fn answer_generated(alloc: Global, case: &Case, name: &[u8]) -> Result<Vec<u8>, Unanswered> {
    let numbers = numbers_in(alloc, "numbers", case.needed("numbers")?)?;
    let text = generated_text(alloc, name, &numbers)?;
    let places = numbers_in(alloc, "lines", case.needed("lines")?)?;
    Ok(lines_at(alloc, &text, &places)?)
}

fn generated_text(alloc: Global, name: &[u8], numbers: &[u64]) -> Result<Vec<u8>, Unanswered> {
    let text = match (name, numbers) {
        (b"job\n", [number]) => generated_job(alloc, *number),
        (b"opening\n", []) => opening(alloc),
        (b"shifts\n", [number, caller]) if *caller < CALLERS => shifts(alloc, *number, *caller),
        (b"summary\n", [number]) => summary_of_nothing(alloc, *number),
        _ => return Err(Unanswered::Unclear { head: "generated" }),
    };
    Ok(text?)
}

fn generated_job(alloc: Global, number: u64) -> Result<Vec<u8>, AllocError> {
    let job = big_job(alloc, number)?;
    write_job(alloc, &job)
}

// The puts that open the accounts, as lines of the first caller.
fn opening(alloc: Global) -> Result<Vec<u8>, AllocError> {
    let mut text = String::new(alloc);
    for op in &opening_puts(alloc)? {
        let deed = Deed::Call { op: *op };
        writeln!(text, "{}", Line { caller: 0, deed })?;
    }
    Ok(text.into_bytes())
}

// From which account, to which, and how much.
fn shifts(alloc: Global, number: u64, caller: u64) -> Result<Vec<u8>, AllocError>
    requires { caller < CALLERS }
{
    let mut text = String::new(alloc);
    for shift in &shifts_of_caller(alloc, number, caller)? {
        push_key(&mut text, &shift.from)?;
        push_key(&mut text, &shift.to)?;
        writeln!(text, "{}", shift.amount)?;
    }
    Ok(text.into_bytes())
}

// Adds a key and a space.
fn push_key(text: &mut String, key: &Text) -> Result<(), AllocError> {
    for at in 0..key.len() {
        text.push(char::from(key.byte(at)))?;
    }
    text.push(' ')
}

// What is told of a store in which nothing was done, and whose clock came to its end.
fn summary_of_nothing(alloc: Global, number: u64) -> Result<Vec<u8>, AllocError> {
    let nothing = Contents::empty(alloc, bank_layout())?;
    big_summary(alloc, number, &nothing, 0, 0, true)
}

fn lines_at(alloc: Global, text: &[u8], places: &[u64]) -> Result<Vec<u8>, AllocError> {
    let mut told = String::new(alloc);
    let mut count = 0u64;
    for line in str::from_utf8(text).unwrap_or("").lines() {
        if places.contains(&count) {
            writeln!(told, "{count}: {line}")?;
        }
        count = count.saturating_add(1);
    }
    writeln!(told, "{count} lines")?;
    Ok(told.into_bytes())
}
