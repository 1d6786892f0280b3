// A picture as lines for a terminal, in the order of the picture as SVG. The cut is a column of #.
use crate::folding::Strip;
use crate::picture::Picture;
use std::alloc::{AllocError, Global};

// How many characters stand between two columns, and beside the wall.
const BETWEEN: usize = 2;

// Where things stand in a line.
#[derive(Drop)]
struct Layout {
    // Where names end.
    names: usize,
    // Where the labels of each column begin.
    starts: Vec<usize>,
    // How many columns stand before the wall.
    wall: usize,
}

/// The picture as lines.
pub fn drawn(alloc: Global, picture: &Picture) -> Result<String, AllocError> {
    let layout = layout_of(alloc, picture)?;
    let mut text = String::new(alloc);
    push_strip(alloc, &mut text, &layout, &picture.heads)?;
    for strip in picture.strips.as_slice() {
        push_strip(alloc, &mut text, &layout, strip)?;
    }
    text.push_str("\n")?;
    for line in picture.lines.as_slice() {
        writeln!(text, "{line}")?;
    }
    Ok(text)
}

// Where things stand in a line.
fn layout_of(alloc: Global, picture: &Picture) -> Result<Layout, AllocError> {
    let wall = picture.wall();
    let names = names_end(picture);
    let widths = picture.widths(alloc)?;
    let mut starts = Vec::new(alloc);
    let mut at = names.saturating_add(1 + BETWEEN);
    for (place, width) in widths.iter().enumerate() {
        if place == wall {
            at = at.saturating_add(BETWEEN);
        }
        starts.push(at)?;
        at = at.saturating_add(*width as usize).saturating_add(BETWEEN);
    }
    Ok(Layout {
        names,
        starts,
        wall,
    })
}

// Where the longest name ends, with a space after it.
fn names_end(picture: &Picture) -> usize {
    let mut longest = picture.heads.name.len();
    for strip in picture.strips.as_slice() {
        longest = longest.max(strip.name.len());
    }
    longest.saturating_add(1)
}

// A lane, row by row.
fn push_strip(
    alloc: Global,
    text: &mut String,
    layout: &Layout,
    strip: &Strip,
) -> Result<(), AllocError> {
    for row in 0..rows_of(strip) {
        let line = line_of(alloc, layout, strip, row)?;
        writeln!(text, "{line}")?;
    }
    Ok(())
}

// How many rows a lane has, one at least.
fn rows_of(strip: &Strip) -> usize {
    let mut rows = 1;
    for stack in strip.stacks.as_slice() {
        rows = rows.max(stack.len());
    }
    rows
}

// A row of a lane: its name in the first, the labels, and the wall.
fn line_of(
    alloc: Global,
    layout: &Layout,
    strip: &Strip,
    row: usize,
) -> Result<String, AllocError> {
    let mut line = String::new(alloc);
    if row == 0 {
        line.push_str(&strip.name)?;
    }
    pad(&mut line, layout.names)?;
    line.push_str(":")?;
    for (place, start) in layout.starts.iter().enumerate() {
        if place == layout.wall {
            pad(&mut line, start.saturating_sub(BETWEEN))?;
            line.push_str("#")?;
        }
        if let Some(label) = label_at(strip, place, row) {
            pad(&mut line, *start)?;
            line.push_str(label)?;
        }
    }
    Ok(line)
}

// The label of a column in a row of a lane, if there is one.
fn label_at(strip: &Strip, place: usize, row: usize) -> Option<&str> {
    let label = strip.stacks.get(place)?.get(row)?;
    Some(label.text.as_str())
}

// Spaces until a line has so many characters.
fn pad(line: &mut String, width: usize) -> Result<(), AllocError> {
    for _space in line.len()..width {
        line.push_str(" ")?;
    }
    Ok(())
}
