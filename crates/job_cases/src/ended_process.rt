// What a process comes to, with devices in memory or with files.
ghost use Rattle.std.specs.Prelude.{map, string_bytes};
ghost use Rattle.std.specs.FinMap as finite;
ghost use Rattle.montage_tool.specs.Devices.{sink_seen, source_seen};
ghost use Rattle.montage_tool.specs.Process.{Ends};
ghost use Rattle.montage_tool.specs.Program.{Answers};

use index_kit::Index;
use mont_base::{Sink, Source};
use montage_tool::{Status, answer, exit_code, say, serve};
use std::rt::Files;
use std::sync::Wait;
use std::thread::Threads;

/// Answers the words with these devices and boxes, says the status by its line, and gives the exit
/// status.
pub fn ended<R: AllocGlobal + Threads + Wait + Sync, J: Source, I: Source, O: Sink, K: Sink>(
    rt: &R,
    words: &[String],
    job: &mut J,
    image: &mut I,
    indexes: Vec<Box<dyn Index + Send>>,
    out: &mut O,
    image_out: &mut K,
) -> u8
    ensures { Ends O.taken O.faults
        (λ written status. Answers (map (λ b. finite.len (places b)) indexes.items)
        (map string_bytes words.now)
        (record {
          job = source_seen J.Source job.old;
          image = source_seen I.Source image.old;
          out = sink_seen O.Sink out.old;
          image_out = sink_seen K.Sink image_out.old;
        })
        (record {
          job = source_seen J.Source job.new;
          image = source_seen I.Source image.new;
          out = sink_seen O.Sink written;
          image_out = sink_seen K.Sink image_out.new;
        }) status)
        out.new result }
{
    let status = answer(rt, words, job, image, indexes, out, image_out);
    let _ = say(rt.alloc(), out, &status);
    exit_code(&status)
}

/// The same of a process whose words name files.
pub fn ended_on_files<R: AllocGlobal + Files + Threads + Wait + Sync, J: Source, O: Sink>(
    rt: &R,
    words: &[String],
    job: &mut J,
    indexes: Vec<Box<dyn Index + Send>>,
    out: &mut O,
) -> u8 {
    let status = serve(rt, words, job, indexes, out).unwrap_or(Status::Memory);
    let _ = say(rt.alloc(), out, &status);
    exit_code(&status)
}
