// The lines of a replay that tell what recovery rebuilds.
ghost use Rattle.std.specs.Prelude.{◌≡◌, ◌++◌, OnOk};
ghost use Rattle.std.specs.String.{string_bytes};
ghost use Rattle.job_text.specs.Lines.{text_of};
ghost use Rattle.core_steps.specs.Sound.{IsSound};
ghost use Rattle.replay.specs.Replays.{nothing, end_lines};

use core_steps::Core;
use job_text::write_units;
use plain::recover;
use std::alloc::{AllocError, Global};

/// What recovery rebuilds of the durable words of a core, and of its current ones.
pub fn write_memories(alloc: Global, text: &mut String, core: &Core) -> Result<(), AllocError>
    requires { IsSound (nothing core.now.layout) core.now }
    ensures { OnOk result (string_bytes text.new
        ≡ string_bytes text.old ++ text_of (end_lines core.now)) }
{
    let durable = recover(alloc, core.layout, core.dur.as_slice())?;
    let current = recover(alloc, core.layout, core.cur.as_slice())?;
    let kinds = core.layout.kinds();
    text.push_str("durable\n")?;
    write_units(text, &kinds, durable.units.as_slice())?;
    text.push_str("current\n")?;
    write_units(text, &kinds, current.units.as_slice())?;
    text.push_str("end\n")?;
    Ok(())
}
