// What the words of a process are answered, with the files that they name.
ghost use Rattle.std.specs.Prelude.{◌≡◌, map, string_bytes, IfOk, OnErr};
ghost use Rattle.std.specs.FinMap as finite;
ghost use Rattle.montage_tool.specs.Process.{AreAnswered, IsSettled};

use crate::command_line::file_word;
use crate::forms::files_of;
use crate::program::answer;
use crate::status::{SinkName, Status};
use index_kit::Index;
use mont_base::{Sink, Source};
use process_devices::{FileSink, FileSource};
use std::alloc::AllocError;
use std::rt::Files;
use std::sync::Wait;
use std::thread::Threads;

/// Answers the words with these devices and boxes, and with the files that the words name. An image
/// is in its place once it is whole, and isn't made otherwise.
pub fn serve<R: AllocGlobal + Files + Threads + Wait + Sync, J: Source, O: Sink>(
    rt: &R,
    words: &[String],
    job: &mut J,
    indexes: Vec<Box<dyn Index + Send>>,
    out: &mut O,
) -> Result<Status, AllocError>
    ensures answered { IfOk result (AreAnswered J.Source O.Sink (map string_bytes words.now)
        (map (λ b. finite.len (places b)) indexes.items) job.old job.new out.old out.new) }
    ensures memory { OnErr result ((job.new ≡ job.old) × (out.new ≡ out.old)) }
{
    let files = files_of(words);
    let mut image = source_of(rt, file_word(words, files.image));
    let mut image_out = sink_of(rt, file_word(words, files.image_out))?;
    let status = answer(rt, words, job, &mut image, indexes, out, &mut image_out);
    if files.image_out.is_some() {
        Ok(settled(&mut image_out, status))
    } else {
        Ok(status)
    }
}

// The image that is read, where a word names one.
fn source_of<R: Files>(rt: &R, path: Option<&str>) -> FileSource<R::File> {
    match path {
        Some(path) => FileSource::open(rt, path),
        None => FileSource::closed(),
    }
}

// The image that is written, where a word names one.
fn sink_of<'a, R: AllocGlobal + Files>(
    rt: &'a R,
    path: Option<&str>,
) -> Result<FileSink<'a, R>, AllocError> {
    match path {
        Some(path) => FileSink::new(rt, rt.alloc(), path),
        None => Ok(FileSink::closed(rt, rt.alloc())),
    }
}

// Puts an image that was written whole to its place. What is left of another is removed.
fn settled<R: Files>(image_out: &mut FileSink<'_, R>, status: Status) -> Status
    ensures { IsSettled status image_out.old.faults image_out.new.faults result }
{
    if status != Status::Done {
        image_out.abandon();
        return status;
    }
    match image_out.finish() {
        Ok(()) => Status::Done,
        Err(_) => Status::WriteFault {
            which: SinkName::Image,
        },
    }
}
