// Schedules from the bytes of their texts.
ghost use Rattle.std.specs.Prelude.{◌≡◌, ◌<◌, ◌++◌, length, IfOk, IfErr, OnOk, MatchOption};
ghost use Rattle.replay.specs.declared.schedule_limits.TheConstants.{SCHEDULE_BYTES};
ghost use Rattle.job_text.specs.Runs.{kept_run};
ghost use Rattle.replay.specs.EventWords.{has_pairs};
ghost use Rattle.replay.specs.Schedules.{IsSchedule};
ghost use Rattle.replay.specs.ScheduleText.{schedule_text};
ghost use Rattle.replay.specs.SchedulesRead.{IsRefusal, BeginsWith, IsNoLine};

use crate::event_reader::read_event;
use crate::schedule::Schedule;
use crate::schedule_limits::{SCHEDULE_LINE_BYTES, SCHEDULE_LINES};
use crate::schedule_refusal::ScheduleRefusal;
use crate::title::read_title;
use core_steps::Event;
use job_text::{Run, split_once};
use mont_base::{PairList, Reply, Sequence};
use std::alloc::{AllocError, Global};

/// The schedule that a text spells. Where the text has more bytes than a schedule's, what is said
/// of them is said of each longer text too.
pub fn parse_schedule(alloc: Global, text: &[u8]) -> Result<Schedule, ScheduleRefusal>
    ensures spelled { IfOk result (λ s. IsSchedule s × (text.now ≡ schedule_text s)
        × (length text.now < SCHEDULE_BYTES)) }
    ensures refused { IfErr result (λ e. IsRefusal text.now e) }
{
    let Some((title, mut rest)) = next_line(text, 0) else {
        return Err(ScheduleRefusal::Text { line: 1 });
    };
    let Some(named) = read_title(title) else {
        return Err(ScheduleRefusal::Text { line: 1 });
    };
    let (layout, callers) = named;
    let mut events = Sequence::new(alloc);
    let mut runs = Sequence::new(alloc);
    while !rest.is_empty() {
        let place = 1 + events.len();
        let refused = ScheduleRefusal::Text { line: place + 1 };
        let Some((line, after)) = next_line(rest, place) else {
            return Err(refused);
        };
        let Some((event, run)) = read_event(line, layout, callers) else {
            return Err(refused);
        };
        keep_run(alloc, &mut runs, &event, &run)?;
        events.push(event)?;
        rest = after;
    }
    Ok(Schedule {
        layout,
        callers,
        events,
        runs,
    })
}

// The first line of a text, and what follows its line feed. The line's place is counted from 0.
fn next_line(text: &[u8], place: u64) -> Option<(&[u8], &[u8])>
    ensures { MatchOption result (IsNoLine text.now place)
        (λ p. BeginsWith text.now place p.0.now p.1.now) }
{
    if place >= SCHEDULE_LINES {
        return None;
    }
    let (line, after) = split_once(text, b'\n')?;
    if line.len() <= SCHEDULE_LINE_BYTES {
        Some((line, after))
    } else {
        None
    }
}

// Keeps the run beside an event's reply, if it has one.
fn keep_run(
    alloc: Global,
    runs: &mut Sequence<Run>,
    event: &Event,
    run: &PairList,
) -> Result<(), AllocError>
    ensures { OnOk result (runs.new ≡ runs.old ++ kept_run (has_pairs event.now) run.now) }
{
    if has_pairs(event) {
        let kept = copied(alloc, run)?;
        runs.push(kept)?;
    }
    Ok(())
}

// Whether an event's reply is a number of pairs.
fn has_pairs(event: &Event) -> bool
    ensures { result ≡ has_pairs event.now }
{
    match event {
        Event::Leave { reply, .. } | Event::Read { reply, .. } => {
            matches!(reply, Reply::Pairs { .. })
        }
        _ => false,
    }
}

// The pairs, in memory of their own.
fn copied(alloc: Global, run: &PairList) -> Result<Run, AllocError>
    ensures { IfOk result (λ copy. copy ≡ run.now) }
{
    let mut copy = Sequence::new(alloc);
    for pair in run.as_slice() {
        copy.push(*pair)?;
    }
    Ok(copy)
}
