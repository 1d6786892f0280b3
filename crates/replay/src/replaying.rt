// A schedule replayed from the fresh core.
ghost use Rattle.std.specs.Prelude.{◌≡◌, ◌++◌, ℕ, Err, None, IfOk, OnOk, MatchResult, map, replicate};
ghost use Rattle.std.specs.List.{enumerate_from};
ghost use Rattle.std.specs.String.{string_bytes};
ghost use Rattle.job_text.specs.Lines.{text_of};
ghost use Rattle.job_text.specs.Runs.{has_run, first_run, runs_behind};
ghost use Rattle.replay.specs.EventWords.{has_pairs};
ghost use Rattle.replay.specs.Replays.{IsReplay, IsFirstNotAllowed, IsAllAllowed, fresh_core, last_core, reached, core_words};

use crate::core_lines::write_core;
use crate::making::make;
use crate::memories::write_memories;
use crate::newest_kept::NewestKept;
use crate::replay_refusal::ReplayRefusal;
use crate::schedule::Schedule;
use core_run::StepRefusal;
use core_steps::{Core, Event};
use job_text::Run;
use mont_base::{Reply, Sequence, Text};
use plain::Contents;
use std::alloc::{AllocError, Global};

/// The text of the cores that the events of a schedule reach one after another from the fresh core,
/// and of what recovery rebuilds of the last one's words.
pub fn replay(alloc: Global, schedule: &Schedule) -> Result<Vec<u8>, ReplayRefusal>
    ensures told { IfOk result (λ bytes. IsReplay schedule.now bytes.items) }
    ensures refused { (line : ℕ) → result ≡ Err (ReplayRefusal.NotAllowed line)
        → IsFirstNotAllowed schedule.now line }

    // A schedule whose events are all allowed is replayed, unless memory runs out.
    ensures accepted { IsAllAllowed schedule.now
        → MatchResult result (λ _. Unit {0}) (λ e. e ≡ ReplayRefusal.Memory) }
{
    let _units = schedule.layout.units();
    let mut text = String::new(alloc);
    let core = replay_events(alloc, schedule, &mut text)?;
    write_memories(alloc, &mut text, &core)?;
    Ok(text.into_bytes())
}

// Makes all events, and writes a line after each.
fn replay_events(
    alloc: Global,
    schedule: &Schedule,
    text: &mut String,
) -> Result<Core, ReplayRefusal>
    ensures core { IfOk result (λ c. c ≡ last_core schedule.now) }
    ensures allowed { OnOk result (IsAllAllowed schedule.now) }
    ensures text { OnOk result (string_bytes text.new ≡ string_bytes text.old
        ++ text_of (map core_words
        (enumerate_from 1 (reached (fresh_core schedule.now) schedule.now.events)))) }
    ensures refused { (line : ℕ) → result ≡ Err (ReplayRefusal.NotAllowed line)
        → IsFirstNotAllowed schedule.now line }
{
    let _units = schedule.layout.units();
    let mut core = Core::fresh(alloc, schedule.layout, schedule.callers)?;
    let mut states = Contents::empty(alloc, schedule.layout)?.units;
    let mut kept = nothing_kept(alloc, schedule.layout.units())?;
    let mut runs = schedule.runs.as_slice();
    for (place, event) in schedule.events.as_slice().iter().enumerate() {
        let (run, behind) = next_run(event, runs);
        match make(alloc, &mut core, &mut states, &mut kept, event, run) {
            Ok(()) => {}
            Err(StepRefusal::NotAllowed) => {
                return Err(ReplayRefusal::NotAllowed {
                    line: place as u64 + 2,
                });
            }
            Err(StepRefusal::Memory) => return Err(ReplayRefusal::Memory),
        }
        write_core(text, place + 1, &core)?;
        runs = behind;
    }
    Ok(core)
}

// Nothing is kept of the newest records of so many units.
fn nothing_kept(alloc: Global, units: u64) -> Result<Sequence<Option<NewestKept>>, AllocError>
    ensures { IfOk result (λ k. k ≡ replicate units None) }
{
    let mut kept = Sequence::new(alloc);
    for _unit in 0..units {
        kept.push(None)?;
    }
    Ok(kept)
}

// The run beside an event's reply, and the runs that are left.
fn next_run<'a>(event: &Event, runs: &'a [Run]) -> (&'a [(Text, Text)], &'a [Run])
    ensures run { result.0.now ≡ first_run (has_pairs event.now) runs.now }
    ensures left { result.1.now ≡ runs_behind (has_pairs event.now) runs.now }
{
    match event {
        Event::Leave { reply, .. } => run_beside(reply, runs),
        Event::Read { reply, .. } => run_beside(reply, runs),
        _ => (&[], runs),
    }
}

fn run_beside<'a>(reply: &Reply, runs: &'a [Run]) -> (&'a [(Text, Text)], &'a [Run])
    ensures run { result.0.now ≡ first_run (has_run reply.now) runs.now }
    ensures left { result.1.now ≡ runs_behind (has_run reply.now) runs.now }
{
    match (reply, runs) {
        (Reply::Pairs { .. }, [run, behind @ ..]) => (run.as_slice(), behind),
        _ => (&[], runs),
    }
}
