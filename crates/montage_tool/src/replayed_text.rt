// A schedule is replayed.
ghost use Rattle.std.specs.Prelude.{IfOk, IfErr, OnOk};
ghost use Rattle.std.specs.Io.KnownBytes.{IsAtEnd};
ghost use Rattle.montage_tool.specs.Devices.{IsRead, ended_as, source_seen};
ghost use Rattle.montage_tool.specs.Judged.{IsReplayed, RefusesReplay};

use crate::read_inputs::schedule_of;
use crate::status::{SourceName, Status};
use mont_base::Source;
use replay::{SCHEDULE_BYTES, replay};
use std::alloc::Global;

// The text of the replay of a source's schedule.
pub(crate) fn replayed_text<J: Source>(alloc: Global, job: &mut J) -> Result<Vec<u8>, Status>
    ensures told { IfOk result (λ text. IsReplayed (J.left job.old) text.items) }
    ensures refused { IfErr result (RefusesReplay (J.left job.old)) }
    ensures source { IsRead SCHEDULE_BYTES SourceName.Job (source_seen J.Source job.old)
        (source_seen J.Source job.new) (ended_as result) }
    ensures whole { OnOk result (IsAtEnd (J.left job.new)) }
{
    let schedule = schedule_of(alloc, job)?;
    Ok(replay(alloc, &schedule)?)
}
