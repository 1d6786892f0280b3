// What is in a picture, whichever way it is drawn.
ghost use Rattle.std.specs.Prelude.{IfOk};
ghost use Rattle.report_drawing.specs.Picture.{IsPicture};

use crate::columns::{Column, columns_of};
use crate::folding::{Label, Strip, strips_of};
use crate::lanes::lanes_of;
use crate::unit_contents::lines_of;
use job_text::Report;
use mont_base::Epoch;
use std::alloc::{AllocError, Global};

/// What is in a picture of a report.
#[derive(Drop)]
pub struct Picture {
    pub columns: Vec<Column>,
    /// What stands above the columns: which epochs they are, and whether they are kept.
    pub heads: Strip,
    pub strips: Vec<Strip>,
    /// What the units held and hold, and last what was answered, kept and lost.
    pub lines: Vec<String>,
}

impl Picture {
    /// The picture of a report.
    pub fn of_report(alloc: Global, report: &Report) -> Result<Picture, AllocError>
        ensures { IfOk result (λ picture. IsPicture report.now picture) }
    {
        let lanes = lanes_of(alloc, report)?;
        let columns = columns_of(alloc, report, lanes.as_slice())?;
        Ok(Picture {
            heads: heads_of(alloc, columns.as_slice(), report.image_clock)?,
            strips: strips_of(alloc, columns.as_slice(), lanes.as_slice())?,
            lines: lines_of(alloc, report)?,
            columns,
        })
    }

    /// How many columns stand before the wall.
    pub fn wall(&self) -> usize {
        for (place, column) in self.columns.iter().enumerate() {
            if column.lost {
                return place;
            }
        }
        self.columns.len()
    }

    /// How many characters the widest label of each column has.
    pub fn widths(&self, alloc: Global) -> Result<Vec<u64>, AllocError> {
        let mut widths = Vec::new(alloc);
        for place in 0..self.columns.len() {
            let mut width = widest(&self.heads, place);
            for strip in self.strips.as_slice() {
                width = width.max(widest(strip, place));
            }
            widths.push(width)?;
        }
        Ok(widths)
    }

    /// How many characters the longest line below the lanes has.
    pub fn longest_line(&self) -> u64 {
        let mut longest = 0;
        for line in self.lines.as_slice() {
            longest = longest.max(line.len() as u64);
        }
        longest
    }
}

// How many characters the widest label has that a lane shows in a column.
fn widest(strip: &Strip, place: usize) -> u64 {
    let mut width = 0;
    if let Some(stack) = strip.stacks.get(place) {
        for label in stack.as_slice() {
            width = width.max(label.text.len() as u64);
        }
    }
    width
}

// What stands above the columns.
fn heads_of(alloc: Global, columns: &[Column], image_clock: Epoch) -> Result<Strip, AllocError> {
    let mut stacks = Vec::new(alloc);
    for column in columns {
        let mut stack = Vec::new(alloc);
        for text in [
            epoch_head(alloc, column, image_clock)?,
            fate_head(alloc, column)?,
        ] {
            let lost = column.lost;
            stack.push(Label { lost, text })?;
        }
        stacks.push(stack)?;
    }
    let name = String::from_str(alloc, "epoch")?;
    Ok(Strip { name, stacks })
}

// Which epochs a column stands for, and whether the crash comes in it.
fn epoch_head(alloc: Global, column: &Column, image_clock: Epoch) -> Result<String, AllocError> {
    let Column { first, last, .. } = *column;
    if column.is_folded() {
        return format!(in alloc; "{first} to {last}");
    }
    let crash = if first == image_clock { ", crash" } else { "" };
    format!(in alloc; "{first}{crash}")
}

// What a crash does to a column.
fn fate_head(alloc: Global, column: &Column) -> Result<String, AllocError> {
    let fate = if column.lost { "lost" } else { "kept" };
    let folded = if column.is_folded() { ", folded" } else { "" };
    format!(in alloc; "{fate}{folded}")
}
