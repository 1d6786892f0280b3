// The words of the command line.
ghost use Rattle.std.specs.Prelude.{◌≡◌, drop, map, string_bytes, Some, None, Err, IfOk, MatchOption, MatchResult};
ghost use Rattle.std.specs.IoError.{error_kind};
ghost use Rattle.std.specs.Vec.Iter.{into_iter_items};
ghost use Rattle.montage_tool.specs.CommandLine.{status_of_kind, word_at};

use crate::status::Status;
use std::alloc::{AllocError, Global};
use std::env::Args;
use std::io;

/// The words after the program's name, where the process has all of these.
pub fn words_of(alloc: Global, all: io::Result<Args>) -> Result<Vec<String>, Status>
    ensures { MatchResult all
        (λ args. MatchResult result (λ words. words.items ≡ drop 1 (into_iter_items args))
        (λ status. status ≡ Status.Memory))
        (λ fault. result ≡ Err (status_of_kind (error_kind fault))) }
{
    match all {
        Ok(args) => behind_first(alloc, args).map_err(|_| Status::Memory),
        Err(fault) => Err(status_of_fault(&fault)),
    }
}

// The words after the first.
fn behind_first(alloc: Global, args: Args) -> Result<Vec<String>, AllocError>
    ensures { IfOk result (λ words. words.items ≡ drop 1 (into_iter_items args)) }
{
    let mut rest = args;
    let _ = rest.next();
    let mut words = Vec::new(alloc);
    for word in rest {
        words.push(word)?;
    }
    Ok(words)
}

// What a fault of the command line comes to: memory ran out, or a word isn't UTF-8.
fn status_of_fault(fault: &io::Error) -> Status
    ensures { result ≡ status_of_kind (error_kind fault.now) }
{
    match fault.kind() {
        io::ErrorKind::OutOfMemory => Status::Memory,
        _ => Status::BadWords,
    }
}

// The file that a word names, where a place is named that has a word.
pub(crate) fn file_word(words: &[String], at: Option<usize>) -> Option<&str>
    ensures { MatchOption result (word_at (map string_bytes words.now) at ≡ None)
        (λ word. word_at (map string_bytes words.now) at ≡ Some word.now) }
{
    let word = words.get(at?)?;
    Some(word.as_str())
}
