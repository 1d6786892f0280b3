// The first unit whose contents aren't what its history leads to up to the cut.
ghost use Rattle.std.specs.Prelude.{◌≡◌, ◌↔◌, IfOk, IsTrue, Some, slice_get};
ghost use Rattle.mont_base.specs.History.{cut_at, state_after};
ghost use Rattle.mont_base.specs.Image.{IsRecovered, clock_of};
ghost use Rattle.job_text.specs.PlainReport.{report_of};
ghost use Rattle.plain.specs.States.{state_of, states_of};
ghost use Rattle.report_check.specs.HeldContents.{ContentsHold};
ghost use Rattle.report_check.specs.Lowest.{IsFirst};

use crate::failing_entry::copied;
use job_text::Report;
use mont_base::{Entry, Epoch, Unit};
use mont_image::Image;
use plain::{Contents, UnitState, same_state};
use std::alloc::AllocError;

/// The first unit of which the image holds, or the report tells, another state than that to which
/// the unit's entries lead up to two epochs before the clock. `found` is what recovery rebuilds of
/// the image.
pub fn other_unit(
    report: &Report,
    image: &Image,
    found: &Contents,
) -> Result<Option<Unit>, AllocError>
    requires layout { report.now.layout ≡ image.now.layout }
    requires clock { clock_of image.now.words ≡ report.now.image_clock }
    requires found { IsRecovered image.now.layout image.now.words (states_of found.now) }
    ensures { IfOk result (IsFirst (ContentsHold (report_of report.now) image.now.words)) }
{
    for unit in 0..report.histories.len() {
        if !is_same_at(report, image, found, unit)? {
            return Ok(Some(unit));
        }
    }
    Ok(None)
}

// Whether a unit's contents are what its history leads to up to the cut.
fn is_same_at(
    report: &Report,
    image: &Image,
    found: &Contents,
    unit: Unit,
) -> Result<bool, AllocError>
    requires layout { report.now.layout ≡ image.now.layout }
    requires clock { clock_of image.now.words ≡ report.now.image_clock }
    requires found { IsRecovered image.now.layout image.now.words (states_of found.now) }
    ensures { IfOk result (λ b. IsTrue b
        ↔ ContentsHold (report_of report.now) image.now.words unit) }
{
    let Some(base) = report.base.units.get(unit) else {
        return Ok(true);
    };
    let Some(history) = report.histories.get(unit) else {
        return Ok(true);
    };
    let cut = image.clock().saturating_sub(2);
    let state = cut_state(base, cut, history.as_slice())?;
    if !holds_state(found, unit, &state) {
        return Ok(false);
    }
    Ok(holds_state(&report.contents, unit, &state))
}

// The state that the entries up to an epoch lead to.
fn cut_state(base: &UnitState, epoch: Epoch, history: &[Entry]) -> Result<UnitState, AllocError>
    ensures { IfOk result (λ s.
        state_of s ≡ state_after (state_of base.now) (cut_at epoch history.now)) }
{
    let mut state = copied(base)?;
    for entry in history {
        if entry.epoch <= epoch {
            let _ = state.apply(&entry.op)?;
        }
    }
    Ok(state)
}

// Whether a unit has this state.
fn holds_state(contents: &Contents, unit: Unit, state: &UnitState) -> bool
    ensures { IsTrue result
        ↔ (slice_get (states_of contents.now) unit ≡ Some (state_of state.now)) }
{
    match contents.units.get(unit) {
        Some(held) => same_state(held, state),
        None => false,
    }
}
