// The top call, which does all that the program does.
ghost use Rattle.std.specs.Prelude.{◌≡◌, ◌↔◌, ◌⊎◌, ℕ, List, map, string_bytes};
ghost use Rattle.std.specs.FinMap as finite;
ghost use Rattle.montage_tool.specs.Devices.{HasOutput, ReachesImage, StopsAtJob, sink_seen, source_seen};
ghost use Rattle.montage_tool.specs.Forms.{AskFor, AsksImage, AsksJob, HaveForm, IsForm, KeepsImage};
ghost use Rattle.montage_tool.specs.Service.{Serves};

use crate::forms::{Form, form_of};
use crate::generated_runs::{bank_run, big_run};
use crate::job_runs::{fresh_run, resumed_run};
use crate::replayed_text::replayed_text;
use crate::sending::{send_both, send_report, send_text};
use crate::status::Status;
use crate::told_contents::contents_of;
use crate::verdict_line::verdict_of;
use index_kit::Index;
use mont_base::{Sink, Source};
use std::sync::Wait;
use std::thread::Threads;

/// Does what the words of the command line ask, over the devices that are handed in.
///
/// `run` reads a job, runs it on a fresh store with a thread for each caller, and writes the
/// report, which is faithful to the job: what recovery finds in the image that the job's mask picks
/// is what the operations of all epochs but the last two lead to (buffered durable linearizability,
/// DISC 2016). `crash` writes that image too, after the whole report. `resume` goes on from an
/// image, and `recover` tells what one holds. `check` holds a report against an image, and `replay`
/// replays a schedule. `big` runs the generated job of a number and tells its summary, and `bank`
/// the generated bank, whose accounts keep their total. Each map unit is given the next of the
/// boxes, which is to be empty; `recover`, `check` and `replay` drop them. Nothing is written
/// before all was read and run. What a form doesn't use isn't asked.
pub fn montage<R: AllocGlobal + Threads + Wait + Sync, J: Source, I: Source, O: Sink, K: Sink>(
    rt: &R,
    words: &[String],
    job: &mut J,
    image: &mut I,
    indexes: Vec<Box<dyn Index + Send>>,
    out: &mut O,
    image_out: &mut K,
) -> Status
    ensures bad_words { (result ≡ Status.BadWords) ↔ ¬ HaveForm (map string_bytes words.now) }
    ensures serves { (form : Form) → IsForm (map string_bytes words.now) form
        → Serves form (map (λ b. finite.len (places b)) indexes.items)
        (record {
          job = source_seen J.Source job.old;
          image = source_seen I.Source image.old;
          out = sink_seen O.Sink out.old;
          image_out = sink_seen K.Sink image_out.old;
        })
        (record {
          job = source_seen J.Source job.new;
          image = source_seen I.Source image.new;
          out = sink_seen O.Sink out.new;
          image_out = sink_seen K.Sink image_out.new;
        }) result }

    // What isn't used stays as it was.
    ensures job { ¬ AskFor AsksJob (map string_bytes words.now) → job.new ≡ job.old }
    ensures image { (¬ AskFor AsksImage (map string_bytes words.now)) ⊎ StopsAtJob result
        → image.new ≡ image.old }
    ensures out { ¬ HasOutput result → out.new ≡ out.old }
    ensures image_out { ¬ (AskFor KeepsImage (map string_bytes words.now) × ReachesImage result)
        → image_out.new ≡ image_out.old }
{
    match form_of(words) {
        None => Status::BadWords,
        Some(form) => serve_form(rt, form, job, image, indexes, out, image_out),
    }
}

// Does what a form asks.
fn serve_form<R: AllocGlobal + Threads + Wait + Sync, J: Source, I: Source, O: Sink, K: Sink>(
    rt: &R,
    form: Form,
    job: &mut J,
    image: &mut I,
    indexes: Vec<Box<dyn Index + Send>>,
    out: &mut O,
    image_out: &mut K,
) -> Status
    requires { (words : List (List ℕ)) × IsForm words form }
    ensures serves { Serves form (map (λ b. finite.len (places b)) indexes.items)
        (record {
          job = source_seen J.Source job.old;
          image = source_seen I.Source image.old;
          out = sink_seen O.Sink out.old;
          image_out = sink_seen K.Sink image_out.old;
        })
        (record {
          job = source_seen J.Source job.new;
          image = source_seen I.Source image.new;
          out = sink_seen O.Sink out.new;
          image_out = sink_seen K.Sink image_out.new;
        }) result }
    ensures job { ¬ AsksJob form → job.new ≡ job.old }
    ensures image { (¬ AsksImage form) ⊎ StopsAtJob result → image.new ≡ image.old }
    ensures out { ¬ HasOutput result → out.new ≡ out.old }
    ensures image_out { ¬ (KeepsImage form × ReachesImage result) → image_out.new ≡ image_out.old }
{
    match form {
        Form::Run => {
            let run = fresh_run::<_, _, Box<dyn Index + Send>>(rt, job, indexes);
            send_report(out, run)
        }
        Form::Crash => {
            let run = fresh_run::<_, _, Box<dyn Index + Send>>(rt, job, indexes);
            send_both(out, image_out, run)
        }
        Form::Resume => {
            let run = resumed_run::<_, _, _, Box<dyn Index + Send>>(rt, job, image, indexes);
            send_report(out, run)
        }
        Form::ResumeTo => {
            let run = resumed_run::<_, _, _, Box<dyn Index + Send>>(rt, job, image, indexes);
            send_both(out, image_out, run)
        }
        Form::Recover { workers } => send_text(out, contents_of(rt, image, workers)),
        Form::Check => send_text(out, verdict_of(rt, job, image)),
        Form::Replay => send_text(out, replayed_text(rt.alloc(), job)),
        Form::Big { number } => {
            let text = big_run::<_, Box<dyn Index + Send>>(rt, number, indexes);
            send_text(out, text)
        }
        Form::Bank { number } => {
            let text = bank_run::<_, Box<dyn Index + Send>>(rt, number, indexes);
            send_text(out, text)
        }
    }
}
