// What stands in the lanes of a picture: one for each unit with its entries, one for each caller
// with what came of its lines. Each label is a cell in the column of an epoch.
ghost use Rattle.std.specs.Prelude.{◌≡◌, ◌++◌, map, slice_get, IfOk, OnOk};
ghost use Rattle.report_drawing.specs.Lanes.{is_entry, entry_shown, outcome_shown, told_epoch, epoch_in, unit_lane, caller_lane, unit_lanes, caller_lanes, lanes_of, shown_of, cells_of};

use crate::kept_calls::is_lost;
use crate::labels::{caller_letter, entry_label, kind_word, outcome_label};
use job_text::{Outcome, Report};
use mont_base::{Entry, Epoch, Sequence};
use std::alloc::{AllocError, Global};

/// A label in the column of an epoch.
#[derive(Drop)]
pub struct Cell {
    pub epoch: Epoch,
    /// Whether it is an entry that the image has lost.
    pub lost: bool,
    pub label: String,
}

/// A unit or a caller, with its cells in their order.
#[derive(Drop)]
pub struct Lane {
    pub name: String,
    pub cells: Vec<Cell>,
}

/// The lanes of all units, and after them those of all callers.
pub fn lanes_of(alloc: Global, report: &Report) -> Result<Vec<Lane>, AllocError>
    ensures { IfOk result (λ lanes. map cells_of lanes.items ≡ lanes_of report.now) }
{
    let mut lanes = Vec::new(alloc);
    push_units(alloc, &mut lanes, report)?;
    push_callers(alloc, &mut lanes, report)?;
    Ok(lanes)
}

// The lanes of all units.
fn push_units(alloc: Global, lanes: &mut Vec<Lane>, report: &Report) -> Result<(), AllocError>
    ensures { OnOk result (map cells_of lanes.new.items
        ≡ map cells_of lanes.old.items ++ unit_lanes report.now) }
{
    for (unit, history) in report.histories.as_slice().iter().enumerate() {
        lanes.push(lane_of_unit(alloc, report, unit, history.as_slice())?)?;
    }
    Ok(())
}

// The lane of a unit with this history.
fn lane_of_unit(
    alloc: Global,
    report: &Report,
    unit: usize,
    history: &[Entry],
) -> Result<Lane, AllocError>
    ensures { IfOk result (λ lane. cells_of lane
        ≡ unit_lane report.now.image_clock history.now) }
{
    let name = unit_name(alloc, report, unit)?;
    let cells = unit_cells(alloc, report.image_clock, history)?;
    Ok(Lane { name, cells })
}

// The lanes of all callers.
fn push_callers(alloc: Global, lanes: &mut Vec<Lane>, report: &Report) -> Result<(), AllocError>
    ensures { OnOk result (map cells_of lanes.new.items
        ≡ map cells_of lanes.old.items ++ caller_lanes report.now) }
{
    for (caller, outcomes) in report.outcomes.as_slice().iter().enumerate() {
        lanes.push(lane_of_caller(alloc, report, caller as u64, outcomes.as_slice())?)?;
    }
    Ok(())
}

// The lane of a caller with these outcomes.
fn lane_of_caller(
    alloc: Global,
    report: &Report,
    caller: u64,
    outcomes: &[Outcome],
) -> Result<Lane, AllocError>
    ensures { IfOk result (λ lane. cells_of lane ≡ caller_lane report.now outcomes.now) }
{
    let letter = caller_letter(caller);
    let name = format!(in alloc; "caller {letter}")?;
    let cells = caller_cells(alloc, report, outcomes)?;
    Ok(Lane { name, cells })
}

/// The name of a unit: its kind and its number.
pub fn unit_name(alloc: Global, report: &Report, unit: usize) -> Result<String, AllocError> {
    let word = match report.layout.kinds().as_slice().get(unit) {
        Some(kind) => kind_word(*kind),
        None => "unit",
    };
    format!(in alloc; "{word} {unit}")
}

// The entries of a unit, each at its epoch.
fn unit_cells(alloc: Global, image_clock: Epoch, history: &[Entry]) -> Result<Vec<Cell>, AllocError>
    ensures { IfOk result (λ cells. map shown_of cells.items
        ≡ unit_lane image_clock history.now) }
{
    let mut cells = Vec::new(alloc);
    for entry in history {
        cells.push(entry_cell(alloc, image_clock, entry)?)?;
    }
    Ok(cells)
}

// An entry at its epoch.
fn entry_cell(alloc: Global, image_clock: Epoch, entry: &Entry) -> Result<Cell, AllocError>
    ensures { IfOk result (λ cell. shown_of cell ≡ entry_shown image_clock entry.now) }
{
    Ok(Cell {
        epoch: entry.epoch,
        lost: is_lost(image_clock, entry.epoch),
        label: entry_label(alloc, entry)?,
    })
}

// The outcomes of a caller, each at the epoch that the caller had reached with it.
fn caller_cells(
    alloc: Global,
    report: &Report,
    outcomes: &[Outcome],
) -> Result<Vec<Cell>, AllocError>
    ensures { IfOk result (λ cells. map shown_of cells.items
        ≡ caller_lane report.now outcomes.now) }
{
    let mut cells = Vec::new(alloc);
    let mut reached = report.base_clock;
    for outcome in outcomes {
        reached = reached.max(told_epoch(report, outcome));
        cells.push(outcome_cell(alloc, report.image_clock, reached, outcome)?)?;
    }
    Ok(cells)
}

// An outcome at the epoch that its caller had reached.
fn outcome_cell(
    alloc: Global,
    image_clock: Epoch,
    epoch: Epoch,
    outcome: &Outcome,
) -> Result<Cell, AllocError>
    ensures { IfOk result (λ cell. shown_of cell ≡ outcome_shown image_clock epoch outcome.now) }
{
    Ok(Cell {
        epoch,
        lost: is_entry(outcome) && is_lost(image_clock, epoch),
        label: outcome_label(alloc, outcome)?,
    })
}

// The epoch of the entry that an outcome names, or the clock that it tells; 0 where it tells none.
fn told_epoch(report: &Report, outcome: &Outcome) -> Epoch
    ensures { result ≡ told_epoch report.now.histories outcome.now }
{
    match outcome {
        Outcome::At { unit, place } => epoch_at(report.histories.as_slice(), *unit, *place),
        Outcome::Synced { epoch } | Outcome::Ticked { epoch } => *epoch,
        _ => 0,
    }
}

// The epoch of the entry at a place of a unit's history, 0 where there is none.
fn epoch_at(histories: &[Sequence<Entry>], unit: u64, place: u64) -> Epoch
    ensures { result ≡ epoch_in (slice_get histories.now unit) place }
{
    match histories.get(unit as usize) {
        Some(history) => match history.get(place) {
            Some(entry) => entry.epoch,
            None => 0,
        },
        None => 0,
    }
}

fn is_entry(outcome: &Outcome) -> bool
    ensures { result ≡ is_entry outcome.now }
{
    matches!(outcome, Outcome::At { .. })
}
