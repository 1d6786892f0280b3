// The lines of a replay that tell the cores.
ghost use Rattle.std.specs.Prelude.{◌≡◌, ◌∷◌, ◌++◌, OnOk};
ghost use Rattle.std.specs.List.{flat_map, enumerate_from};
ghost use Rattle.std.specs.String.{string_bytes};
ghost use Rattle.job_text.specs.Lines.{line_of};
ghost use Rattle.replay.specs.Replays.{stage_word, unit_words, core_words};

use core_answer::core_words::{clock, durable_clock, word};
use core_steps::{Core, UnitPart, UnitStage};
use mont_base::Sequence;
use std::alloc::AllocError;

/// A number, and both clocks of a core with what each of its units shows.
pub fn write_core(text: &mut String, number: usize, core: &Core) -> Result<(), AllocError>
    ensures { OnOk result (string_bytes text.new
        ≡ string_bytes text.old ++ line_of (core_words (number, core.now))) }
{
    let clock = clock(core);
    let durable = durable_clock(core);
    write!(text, "{number} {clock} {durable}")?;
    write_shown(text, &core.told, core.units.as_slice())?;
    text.push_str("\n")?;
    Ok(())
}

// The announcement and the stage of each unit, after a space each.
fn write_shown(
    text: &mut String,
    told: &Sequence<u64>,
    units: &[UnitPart],
) -> Result<(), AllocError>
    ensures { OnOk result (string_bytes text.new ≡ string_bytes text.old
        ++ flat_map (λ p. flat_map (λ word. 32 ∷ word) (unit_words told.now p))
        (enumerate_from 0 units.now)) }
{
    for (unit, part) in units.iter().enumerate() {
        let announcement = word(told, unit as u64);
        let letter = stage_letter(part.stage);
        write!(text, " {announcement} {letter}")?;
    }
    Ok(())
}

fn stage_letter(stage: UnitStage) -> &'static str
    ensures { result.now ≡ stage_word stage }
{
    match stage {
        UnitStage::Idle => "i",
        UnitStage::Told { .. } => "t",
        UnitStage::Within { .. } => "w",
        UnitStage::Closing { .. } => "c",
    }
}
