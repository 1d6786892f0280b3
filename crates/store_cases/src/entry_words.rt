// Entries as they are told in reports.
use job_text::{Run, write_histories};
use mont_base::{Entry, PairList, Sequence};
use std::alloc::{AllocError, Global};
use std::slice;

/// Tells what stands after a mark in the line of an entry, with the pairs of a range.
pub fn tell_behind(
    told: &mut String,
    alloc: Global,
    mark: &str,
    entry: &Entry,
    pairs: &PairList,
) -> Result<(), AllocError> {
    let text = history_text(alloc, entry, pairs)?;
    match text.as_str().trim_end().split_once(mark) {
        Some((_before, words)) => told.push_str(words),
        None => Ok(()),
    }
}

// The text of a history of one entry.
fn history_text(alloc: Global, entry: &Entry, pairs: &PairList) -> Result<String, AllocError> {
    let history = copied(alloc, slice::from_ref(entry))?;
    let runs = runs_of(alloc, pairs)?;
    let mut text = String::new(alloc);
    write_histories(&mut text, slice::from_ref(&history), slice::from_ref(&runs))?;
    Ok(text)
}

fn runs_of(alloc: Global, pairs: &PairList) -> Result<Sequence<Run>, AllocError> {
    let mut runs = Sequence::new(alloc);
    runs.push(copied(alloc, pairs.as_slice())?)?;
    Ok(runs)
}

fn copied<T: Copy>(alloc: Global, items: &[T]) -> Result<Sequence<T>, AllocError> {
    let mut copy = Sequence::new(alloc);
    for item in items {
        copy.push(*item)?;
    }
    Ok(copy)
}
