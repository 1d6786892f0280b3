// Schedules from sources of bytes.
ghost use Rattle.std.specs.Prelude.{◌≡◌, ℕ, Some, Err, IfSome, IfOk, MatchResult};
ghost use Rattle.replay.specs.declared.schedule.Schedule.{Schedule};
ghost use Rattle.replay.specs.Schedules.{IsSchedule};
ghost use Rattle.replay.specs.ScheduleText.{schedule_text, IsFirstRefused};
ghost use Rattle.replay.specs.SchedulesRead.{IsOutside, IsTaken, TellsFaults};

use crate::schedule::Schedule;
use crate::schedule_limits::SCHEDULE_BYTES;
use crate::schedule_parser::parse_schedule;
use crate::schedule_refusal::ScheduleRefusal;
use mont_base::Source;
use source_bytes::read_at_most;
use std::alloc::Global;

/// Reads a schedule to the end of the source, or 50,200,001 bytes, and then decides. A fault of
/// reading refuses before any line of the text.
pub fn read_schedule<S: Source>(alloc: Global, source: &mut S) -> Result<Schedule, ScheduleRefusal>
    ensures spelled { IfOk result
        (λ s. IsSchedule s × IfSome (S.left source.old) (λ text. text ≡ schedule_text s)) }
    ensures refused { (line : ℕ) → result ≡ Err (ScheduleRefusal.Text line)
        → IfSome (S.left source.old) (λ text. IsFirstRefused text line) }

    // A schedule's text gives the schedule, unless the source fails or memory runs out.
    ensures accepted { (s : Schedule) → IsSchedule s → S.left source.old ≡ Some (schedule_text s)
        → MatchResult result (λ r. r ≡ s) IsOutside }

    // What was taken of the source, and how often it failed.
    ensures taken { IsTaken (S.left source.old) (S.left source.new) result }
    ensures cause { TellsFaults (S.faults source.old) (S.faults source.new) result }
{
    let text = read_at_most(alloc, source, SCHEDULE_BYTES)?;
    parse_schedule(alloc, text.as_slice())
}
