// The columns of a picture: one for each epoch in which something stands. Where many epochs are
// kept, or many lost, one column stands for all between the first and the last of them.
ghost use Rattle.std.specs.Prelude.{◌≡◌, ◌==◌, ◌++◌, not, map, IfOk, OnOk};
ghost use Rattle.report_drawing.specs.declared.lanes.Cell.{Cell};
ghost use Rattle.report_drawing.specs.Lanes.{cells_of};
ghost use Rattle.report_drawing.specs.Columns.{epochs_in, single, columns_in, columns_at, holds, AreColumns};

use crate::kept_calls::{is_lost, last_kept};
use crate::lanes::{Cell, Lane};
use job_text::Report;
use mont_base::Epoch;
use std::alloc::{AllocError, Global};

// So many epochs at each end have columns of their own.
const ENDS: usize = 12;
// Of no more epochs than these none is folded.
const MOST_COLUMNS: usize = 25;

/// The epochs from the first to the last: one, or more that are folded into one column.
#[derive(Clone, Copy)]
pub struct Column {
    pub first: Epoch,
    pub last: Epoch,
    /// Whether it stands after the cut.
    pub lost: bool,
}

impl Column {
    /// Whether it stands for more than one epoch.
    pub fn is_folded(&self) -> bool
        ensures { result ≡ not (self.now.first == self.now.last) }
    {
        self.first != self.last
    }

    /// Whether it stands for this epoch.
    pub fn holds(&self, epoch: Epoch) -> bool
        ensures { result ≡ holds self.now epoch }
    {
        self.first <= epoch && epoch <= self.last
    }
}

/// The columns of a report with these lanes: those of the epochs that are kept, and after them
/// those of the others.
pub fn columns_of(alloc: Global, report: &Report, lanes: &[Lane]) -> Result<Vec<Column>, AllocError>
    ensures { IfOk result (λ columns. AreColumns report.now.image_clock
        (epochs_in report.now.base_clock report.now.image_clock (map cells_of lanes.now))
        columns.items) }
{
    let mut epochs = epochs_of(alloc, report, lanes)?;
    epochs.sort_unstable();
    epochs.dedup();
    columns_at(alloc, report.image_clock, epochs.as_slice())
}

// The epochs in which something stands: the clock at the start, the last epoch that is kept, the
// clock of the image, and the epochs of all cells.
fn epochs_of(alloc: Global, report: &Report, lanes: &[Lane]) -> Result<Vec<Epoch>, AllocError>
    ensures { IfOk result (λ epochs. epochs.items
        ≡ epochs_in report.now.base_clock report.now.image_clock (map cells_of lanes.now)) }
{
    let mut epochs = Vec::new(alloc);
    epochs.push(report.base_clock)?;
    epochs.push(last_kept(report.image_clock))?;
    epochs.push(report.image_clock)?;
    for lane in lanes {
        push_epochs(&mut epochs, lane.cells.as_slice())?;
    }
    Ok(epochs)
}

// The epochs of cells.
fn push_epochs(epochs: &mut Vec<Epoch>, cells: &[Cell]) -> Result<(), AllocError>
    ensures { OnOk result (epochs.new.items
        ≡ epochs.old.items ++ map (λ (cell : Cell). cell.epoch) cells.now) }
{
    for cell in cells {
        epochs.push(cell.epoch)?;
    }
    Ok(())
}

// The columns of epochs by rising number.
fn columns_at(
    alloc: Global,
    image_clock: Epoch,
    epochs: &[Epoch],
) -> Result<Vec<Column>, AllocError>
    ensures { IfOk result (λ columns. columns.items ≡ columns_at image_clock epochs.now) }
{
    let (mut kept, mut lost) = (Vec::new(alloc), Vec::new(alloc));
    for epoch in epochs {
        if is_lost(image_clock, *epoch) {
            lost.push(*epoch)?;
        } else {
            kept.push(*epoch)?;
        }
    }
    let mut columns = Vec::new(alloc);
    push_columns(&mut columns, kept.as_slice(), false)?;
    push_columns(&mut columns, lost.as_slice(), true)?;
    Ok(columns)
}

// The columns of epochs that are all kept, or all lost.
fn push_columns(columns: &mut Vec<Column>, epochs: &[Epoch], lost: bool) -> Result<(), AllocError>
    ensures { OnOk result (columns.new.items ≡ columns.old.items ++ columns_in lost epochs.now) }
{
    if epochs.len() <= MOST_COLUMNS {
        return push_single(columns, epochs, lost);
    }
    let (front, rest) = epochs.split_at(ENDS);
    let (between, back) = rest.split_at(rest.len() - ENDS);
    push_single(columns, front, lost)?;
    columns.push(Column {
        first: between[0],
        last: between[between.len() - 1],
        lost,
    })?;
    push_single(columns, back, lost)
}

// A column for each epoch.
fn push_single(columns: &mut Vec<Column>, epochs: &[Epoch], lost: bool) -> Result<(), AllocError>
    ensures { OnOk result (columns.new.items ≡ columns.old.items ++ map (single lost) epochs.now) }
{
    for epoch in epochs {
        columns.push(Column {
            first: *epoch,
            last: *epoch,
            lost,
        })?;
    }
    Ok(())
}
