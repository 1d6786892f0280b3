// What the program does with the devices of its process, whichever they are.
ghost use Rattle.std.specs.Prelude.{◌≡◌, ◌⊎◌, Ok, IfOk, OnOk, OnErr, map, string_bytes};
ghost use Rattle.std.specs.FinMap as finite;
ghost use Rattle.std.specs.Process.{exit_status};
ghost use Rattle.montage_tool.specs.Devices.{HasOutput, ReachesImage, StopsAtJob, sink_seen, source_seen};
ghost use Rattle.montage_tool.specs.Forms.{AskFor, AsksImage, AsksJob, KeepsImage};
ghost use Rattle.montage_tool.specs.Program.{Answers, IsSaid};
ghost use Rattle.montage_tool.specs.Status.{exit_code_of, status_line};

use crate::about::question_of;
use crate::sending::send;
use crate::status::{Status, exit_code, status_text};
use crate::top_call::montage;
use index_kit::Index;
use mont_base::{Sink, Source, deliver};
use std::alloc::{AllocError, Global};
use std::process::ExitCode;
use std::sync::Wait;
use std::thread::Threads;

/// Answers what the words ask: of the program itself, or by `montage`.
pub fn answer<R: AllocGlobal + Threads + Wait + Sync, J: Source, I: Source, O: Sink, K: Sink>(
    rt: &R,
    words: &[String],
    job: &mut J,
    image: &mut I,
    indexes: Vec<Box<dyn Index + Send>>,
    out: &mut O,
    image_out: &mut K,
) -> Status
    ensures answered { Answers (map (λ b. finite.len (places b)) indexes.items)
        (map string_bytes words.now)
        (record {
          job = source_seen J.Source job.old;
          image = source_seen I.Source image.old;
          out = sink_seen O.Sink out.old;
          image_out = sink_seen K.Sink image_out.old;
        })
        (record {
          job = source_seen J.Source job.new;
          image = source_seen I.Source image.new;
          out = sink_seen O.Sink out.new;
          image_out = sink_seen K.Sink image_out.new;
        }) result }

    // What isn't used stays as it was.
    ensures job { ¬ AskFor AsksJob (map string_bytes words.now) → job.new ≡ job.old }
    ensures image { (¬ AskFor AsksImage (map string_bytes words.now)) ⊎ StopsAtJob result
        → image.new ≡ image.old }
    ensures out { ¬ HasOutput result → out.new ≡ out.old }
    ensures image_out { ¬ (AskFor KeepsImage (map string_bytes words.now) × ReachesImage result)
        → image_out.new ≡ image_out.old }
{
    match question_of(words) {
        Some(question) => send(out, question.text().as_bytes()),
        None => montage(rt, words, job, image, indexes, out, image_out),
    }
}

/// The exit status of the process.
pub fn exit_of(status: &Status) -> ExitCode
    ensures { exit_status result ≡ exit_code_of status.now }
{
    ExitCode::from(exit_code(status))
}

/// Says a status other than `Done` by its line. Without memory for the line nothing is written.
pub fn say<O: Sink>(alloc: Global, out: &mut O, status: &Status) -> Result<(), AllocError>
    ensures told { OnOk result
        (IsSaid O.taken O.faults out.old out.new (status_line status.now)) }
    ensures untold { OnErr result (out.new ≡ out.old) }
    ensures done { status.now ≡ Status.Done → (result ≡ Ok tt) × (out.new ≡ out.old) }
{
    if *status == Status::Done {
        return Ok(());
    }
    let line = line_of(alloc, status)?;
    say_line(out, &line);
    Ok(())
}

// Writes a line. Where the sink fails there is nobody left to tell.
fn say_line<O: Sink>(out: &mut O, line: &str)
    ensures { IsSaid O.taken O.faults out.old out.new line.now }
{
    let _ = deliver(out, line.as_bytes());
}

// The line that tells a status. It is empty where all went well.
fn line_of(alloc: Global, status: &Status) -> Result<String, AllocError>
    ensures { IfOk result (λ line. string_bytes line ≡ status_line status.now) }
{
    let mut line = status_text(alloc, status)?;
    if !line.is_empty() {
        line.push('\n')?;
    }
    Ok(line)
}
