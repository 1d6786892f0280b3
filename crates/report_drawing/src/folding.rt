// What is drawn of a lane in each column: the first labels, and below them how many more there are.
ghost use Rattle.std.specs.Prelude.{◌≡◌, ◌++◌, map, IfOk, OnOk};
ghost use Rattle.report_drawing.specs.Lanes.{shown_of, cells_of};
ghost use Rattle.report_drawing.specs.Folding.{drawn_of, drawn_all, label_of, most_of, more_labels, IsStack, AreStacks, stacks_drawn, AreStrips};

use crate::columns::Column;
use crate::lanes::{Cell, Lane};
use std::alloc::{AllocError, Global};

// So many labels of a lane are drawn in a column at most. In one that is folded none are.
const MOST_LABELS: usize = 12;

/// A label as it is drawn.
#[derive(Drop)]
pub struct Label {
    /// Whether it is grey.
    pub lost: bool,
    pub text: String,
}

/// A lane as it is drawn: of each column its labels, one below the other.
#[derive(Drop)]
pub struct Strip {
    pub name: String,
    pub stacks: Vec<Vec<Label>>,
}

/// What is drawn of each lane.
pub fn strips_of(
    alloc: Global,
    columns: &[Column],
    lanes: &[Lane],
) -> Result<Vec<Strip>, AllocError>
    ensures { IfOk result (λ strips. AreStrips columns.now (map cells_of lanes.now) strips.items) }
{
    let mut strips = Vec::new(alloc);
    for lane in lanes {
        strips.push(strip_of(alloc, columns, lane)?)?;
    }
    Ok(strips)
}

// What is drawn of a lane.
fn strip_of(alloc: Global, columns: &[Column], lane: &Lane) -> Result<Strip, AllocError>
    ensures { IfOk result (λ strip. AreStacks columns.now (cells_of lane.now)
        (stacks_drawn strip)) }
{
    let name = String::from_str(alloc, lane.name.as_str())?;
    let stacks = stacks_of(alloc, columns, lane.cells.as_slice())?;
    Ok(Strip { name, stacks })
}

// What is drawn in each column of a lane with these cells.
fn stacks_of(
    alloc: Global,
    columns: &[Column],
    cells: &[Cell],
) -> Result<Vec<Vec<Label>>, AllocError>
    ensures { IfOk result (λ stacks. AreStacks columns.now (map shown_of cells.now)
        (map drawn_all stacks.items)) }
{
    let mut stacks = Vec::new(alloc);
    for column in columns {
        stacks.push(stack_of(alloc, column, cells)?)?;
    }
    Ok(stacks)
}

// What is drawn in a column of a lane with these cells.
fn stack_of(alloc: Global, column: &Column, cells: &[Cell]) -> Result<Vec<Label>, AllocError>
    ensures { IfOk result (λ labels. IsStack (map shown_of cells.now) column.now
        (drawn_all labels)) }
{
    let most = most_of(column);
    let mut labels = Vec::new(alloc);
    let mut more: u64 = 0;
    for cell in cells {
        if column.holds(cell.epoch) {
            if labels.len() < most {
                labels.push(label_of(alloc, cell)?)?;
            } else {
                more += 1;
            }
        }
    }
    push_more(alloc, &mut labels, column, more)?;
    Ok(labels)
}

// How many labels of a lane are drawn in a column at most.
fn most_of(column: &Column) -> usize
    ensures { result ≡ most_of column.now }
{
    if column.is_folded() { 0 } else { MOST_LABELS }
}

// The label of a cell.
fn label_of(alloc: Global, cell: &Cell) -> Result<Label, AllocError>
    ensures { IfOk result (λ label. drawn_of label ≡ label_of (shown_of cell.now)) }
{
    Ok(Label {
        lost: cell.lost,
        text: String::from_str(alloc, cell.label.as_str())?,
    })
}

// What says how many labels aren't drawn, if there are any.
fn push_more(
    alloc: Global,
    labels: &mut Vec<Label>,
    column: &Column,
    more: u64,
) -> Result<(), AllocError>
    ensures { OnOk result (drawn_all labels.new
        ≡ drawn_all labels.old ++ more_labels column.now more) }
{
    if more > 0 {
        let text = format!(in alloc; "{more} more")?;
        let lost = column.lost;
        labels.push(Label { lost, text })?;
    }
    Ok(())
}
