//! The program that runs jobs over buffered durable structures.
#![tactic(auto)]

ghost use Rattle.std.specs.Prelude.{◌≡◌, map, string_bytes, MatchResult};
ghost use Rattle.std.specs.FinMap as finite;
ghost use Rattle.std.specs.Process.{exit_status};
ghost use Rattle.montage_tool.specs.Process.{CameOf, Ends};

use index_kit::{Index, ProbeIndex, SortedIndex};
use mont_base::{MOST_UNITS, Sink, Source};
use montage_tool::{Status, StdSink, StdSource, exit_of, say, serve, words_of};
use process_devices::hold_places;
use std::process::ExitCode;
use std::rt::{Env, Files};
use std::sync::Wait;
use std::thread::Threads;
use std::{env, io};

fn main(rt: HostRuntime) -> ExitCode {
    let _held = hold_places(&rt);
    let mut job = StdSource::new(rt.reader());
    let mut out = StdSink::new(io::writer(&rt));
    answer_words(&rt, &mut job, &mut out)
}

// The words are answered with as many empty boxes as a store has units, of two kinds in turn. The
// first map is given the one that probes, which finds a key quicker. Where there is no memory for
// them there are no words either.
fn answer_words<R: AllocGlobal + Env + Files + Threads + Wait + Sync, J: Source, O: Sink>(
    rt: &R,
    job: &mut J,
    out: &mut O,
) -> ExitCode {
    let alloc = rt.alloc();
    let mut indexes: Vec<Box<dyn Index + Send>> = Vec::new(alloc);
    for _pair in 0..MOST_UNITS / 2 {
        let Ok(probed) = Box::new(alloc, ProbeIndex::new(alloc)) else {
            break;
        };
        let Ok(sorted) = Box::new(alloc, SortedIndex::new(alloc)) else {
            break;
        };
        if indexes.push(probed).is_err() || indexes.push(sorted).is_err() {
            break;
        }
    }
    let words = if indexes.len() < MOST_UNITS {
        Err(Status::Memory)
    } else {
        words_of(alloc, env::args(rt))
    };
    end_process(rt, words, job, indexes, out)
}

// Answers the words of the process, where it has any, with these boxes, says the status by its
// line, and ends with its exit status. Where there is no memory for the line, the exit status alone
// tells it.
fn end_process<R: AllocGlobal + Files + Threads + Wait + Sync, J: Source, O: Sink>(
    rt: &R,
    words: Result<Vec<String>, Status>,
    job: &mut J,
    indexes: Vec<Box<dyn Index + Send>>,
    out: &mut O,
) -> ExitCode
    ensures { Ends O.taken O.faults
        (λ written status. MatchResult words
        (λ w. CameOf J.Source O.Sink (map string_bytes w.items)
        (map (λ b. finite.len (places b)) indexes.items) job.old job.new out.old written status)
        (λ s. (status ≡ s) × (job.new ≡ job.old) × (written ≡ out.old)))
        out.new (exit_status result) }
{
    let status = status_of(rt, words, job, indexes, out);
    let _ = say(rt.alloc(), out, &status);
    exit_of(&status)
}

// What came of the words.
fn status_of<R: AllocGlobal + Files + Threads + Wait + Sync, J: Source, O: Sink>(
    rt: &R,
    words: Result<Vec<String>, Status>,
    job: &mut J,
    indexes: Vec<Box<dyn Index + Send>>,
    out: &mut O,
) -> Status
    ensures { MatchResult words
        (λ w. CameOf J.Source O.Sink (map string_bytes w.items)
        (map (λ b. finite.len (places b)) indexes.items) job.old job.new out.old out.new result)
        (λ s. (result ≡ s) × (job.new ≡ job.old) × (out.new ≡ out.old)) }
{
    match words {
        Ok(words) => match serve(rt, &words, job, indexes, out) {
            Ok(status) => status,
            Err(_) => Status::Memory,
        },
        Err(status) => status,
    }
}
