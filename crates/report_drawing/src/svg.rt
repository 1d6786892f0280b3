// A picture as SVG. From the top: epochs, and whether they are kept; a lane for each unit and each
// caller; what the units hold; what was kept and lost.
ghost use Rattle.std.specs.Prelude.{◌≡◌, ◌++◌, map, string_bytes, OnOk};
ghost use Rattle.report_drawing.specs.Folding.{drawn_of, drawn_all, stacks_drawn};
ghost use Rattle.report_drawing.specs.Svg.{below, rows_of, start_of, svg_byte, escaped, text_svg, end_svg, row_start, row_end, row_svg, rows_svg, stack_svg, stacks_svg, name_svg, strip_svg, strips_svg};

use crate::folding::{Label, Strip};
use crate::picture::Picture;
use std::alloc::{AllocError, Global};

// How wide a character is, in pixels, and the room beside a label.
const CHARACTER: u64 = 8;

const MARGIN: u64 = 20;
// The least width of a column.
const LEAST: u64 = 90;
// The height of a row.
const ROW: u64 = 20;
// How far letters go below their row.
const TAIL: u64 = 6;
// Where names and lines begin, and where the first column does.
const BESIDE: u64 = 10;

const LEFT: u64 = 120;

/// The picture as SVG.
pub fn drawn(alloc: Global, picture: &Picture) -> Result<String, AllocError> {
    let (starts, right) = starts_of(alloc, picture)?;
    let below = end_of(picture);
    let width = right.max(pixels(picture.longest_line()));
    let lines = ROW.saturating_mul(picture.lines.len() as u64);
    let height = below.saturating_add(lines).saturating_add(ROW);
    let mut svg = String::new(alloc);
    push_head(&mut svg, width, height)?;
    push_wall(
        &mut svg,
        start_at(starts.as_slice(), picture.wall()),
        right,
        below.saturating_add(TAIL),
    )?;
    push_strip(&mut svg, 0, starts.as_slice(), &picture.heads)?;
    push_strips(
        &mut svg,
        3 * ROW,
        starts.as_slice(),
        picture.strips.as_slice(),
    )?;
    push_lines(&mut svg, below, picture.lines.as_slice())?;
    svg.push_str("</svg>\n")?;
    Ok(svg)
}

// Where each column begins, and last where they end; and the same with room for the last label.
fn starts_of(alloc: Global, picture: &Picture) -> Result<(Vec<u64>, u64), AllocError> {
    let widths = picture.widths(alloc)?;
    let mut starts = Vec::new(alloc);
    let mut at = LEFT;
    for width in widths.as_slice() {
        starts.push(at)?;
        at = at.saturating_add(pixels(*width));
    }
    starts.push(at)?;
    Ok((starts, at))
}

// How wide so many characters are, with the room beside them.
fn pixels(characters: u64) -> u64 {
    characters
        .saturating_mul(CHARACTER)
        .saturating_add(MARGIN)
        .max(LEAST)
}

// Where the column at a place begins.
fn start_at(starts: &[u64], place: usize) -> u64
    ensures { result ≡ start_of starts.now place }
{
    match starts.get(place) {
        Some(start) => *start,
        None => LEFT,
    }
}

// Where the lanes end.
fn end_of(picture: &Picture) -> u64 {
    let mut end = 3 * ROW;
    for strip in picture.strips.as_slice() {
        end = below(end, strip);
    }
    end
}

// Where the lane below a lane begins that begins here.
fn below(top: u64, strip: &Strip) -> u64
    ensures { result ≡ below top (stacks_drawn strip.now) }
{
    top.saturating_add(rows_of(strip).saturating_mul(ROW))
}

// How many rows a lane has, one at least.
fn rows_of(strip: &Strip) -> u64
    ensures { result ≡ rows_of (stacks_drawn strip.now) }
{
    let mut rows: u64 = 1;
    for stack in strip.stacks.as_slice() {
        rows = rows.max(stack.len() as u64);
    }
    rows
}

fn push_head(svg: &mut String, width: u64, height: u64) -> Result<(), AllocError> {
    svg.push_str("<svg xmlns='http://www.w3.org/2000/svg' font-family='monospace'")?;
    writeln!(svg, " font-size='13' width='{width}' height='{height}'>")?;
    writeln!(
        svg,
        "<rect width='{width}' height='{height}' fill='white'/>"
    )
}

// The wall before the first column that is lost, and grey ground after it.
fn push_wall(svg: &mut String, start: u64, right: u64, below: u64) -> Result<(), AllocError> {
    let wall = start.saturating_sub(BESIDE);
    let behind = right.saturating_sub(wall);
    writeln!(
        svg,
        "<rect x='{wall}' width='{behind}' height='{below}' fill='#eeeeee'/>"
    )?;
    writeln!(
        svg,
        "<rect x='{wall}' width='3' height='{below}' fill='black'/>"
    )
}

// Lanes one below the other, the first from this height on.
fn push_strips(
    svg: &mut String,
    top: u64,
    starts: &[u64],
    strips: &[Strip],
) -> Result<(), AllocError>
    ensures { OnOk result (string_bytes svg.new
        ≡ string_bytes svg.old ++ strips_svg starts.now top strips.now) }
{
    let mut at = top;
    for strip in strips {
        push_strip(svg, at, starts, strip)?;
        at = below(at, strip);
    }
    Ok(())
}

// A lane: its name, and the labels of each column.
fn push_strip(svg: &mut String, top: u64, starts: &[u64], strip: &Strip) -> Result<(), AllocError>
    ensures { OnOk result (string_bytes svg.new
        ≡ string_bytes svg.old ++ strip_svg starts.now top strip.now) }
{
    push_name(svg, top, strip.name.as_str())?;
    push_stacks(svg, top, starts, strip.stacks.as_slice())
}

// The name of a lane.
fn push_name(svg: &mut String, top: u64, name: &str) -> Result<(), AllocError>
    ensures { OnOk result (string_bytes svg.new ≡ string_bytes svg.old ++ name_svg top name.now) }
{
    push_text(svg, BESIDE, top)?;
    push_row(svg, BESIDE, false, name)?;
    push_end(svg)
}

// The labels of each column of a lane.
fn push_stacks(
    svg: &mut String,
    top: u64,
    starts: &[u64],
    stacks: &[Vec<Label>],
) -> Result<(), AllocError>
    ensures { OnOk result (string_bytes svg.new
        ≡ string_bytes svg.old ++ stacks_svg starts.now top (map drawn_all stacks.now)) }
{
    for (place, stack) in stacks.iter().enumerate() {
        push_stack(svg, start_at(starts, place), top, stack.as_slice())?;
    }
    Ok(())
}

// Labels one below the other, where there are any.
fn push_stack(svg: &mut String, x: u64, top: u64, labels: &[Label]) -> Result<(), AllocError>
    ensures { OnOk result (string_bytes svg.new
        ≡ string_bytes svg.old ++ stack_svg x top (map drawn_of labels.now)) }
{
    if labels.is_empty() {
        return Ok(());
    }
    push_text(svg, x, top)?;
    push_rows(svg, x, labels)?;
    push_end(svg)
}

// Labels, a row for each.
fn push_rows(svg: &mut String, x: u64, labels: &[Label]) -> Result<(), AllocError>
    ensures { OnOk result (string_bytes svg.new
        ≡ string_bytes svg.old ++ rows_svg x (map drawn_of labels.now)) }
{
    for label in labels {
        push_row(svg, x, label.lost, label.text.as_str())?;
    }
    Ok(())
}

// Lines below the lanes.
fn push_lines(svg: &mut String, top: u64, lines: &[String]) -> Result<(), AllocError> {
    push_text(svg, BESIDE, top)?;
    for line in lines {
        push_row(svg, BESIDE, false, line)?;
    }
    push_end(svg)
}

// The beginning of rows of text, the first of them one row below this height.
fn push_text(svg: &mut String, x: u64, y: u64) -> Result<(), AllocError>
    ensures { OnOk result (string_bytes svg.new ≡ string_bytes svg.old ++ text_svg x y) }
{
    writeln!(svg, "<text x='{x}' y='{y}'>")
}

// The end of rows of text.
fn push_end(svg: &mut String) -> Result<(), AllocError>
    ensures { OnOk result (string_bytes svg.new ≡ string_bytes svg.old ++ end_svg) }
{
    svg.push_str("</text>\n")
}

// One row of text, below the row before it.
fn push_row(svg: &mut String, x: u64, lost: bool, text: &str) -> Result<(), AllocError>
    ensures { OnOk result (string_bytes svg.new
        ≡ string_bytes svg.old ++ row_svg x lost text.now) }
{
    push_row_start(svg, x, lost)?;
    push_escaped(svg, text)?;
    push_row_end(svg)
}

fn push_row_start(svg: &mut String, x: u64, lost: bool) -> Result<(), AllocError>
    ensures { OnOk result (string_bytes svg.new ≡ string_bytes svg.old ++ row_start x lost) }
{
    if lost {
        write!(svg, "<tspan x='{x}' dy='20' fill='gray'>")
    } else {
        write!(svg, "<tspan x='{x}' dy='20' fill='black'>")
    }
}

fn push_row_end(svg: &mut String) -> Result<(), AllocError>
    ensures { OnOk result (string_bytes svg.new ≡ string_bytes svg.old ++ row_end) }
{
    svg.push_str("</tspan>\n")
}

// A text, with names for what doesn't stand for itself in SVG.
fn push_escaped(svg: &mut String, text: &str) -> Result<(), AllocError>
    ensures { OnOk result (string_bytes svg.new ≡ string_bytes svg.old ++ escaped text.now) }
{
    let bytes = text.as_bytes();
    for byte in bytes {
        push_byte(svg, *byte)?;
    }
    Ok(())
}

fn push_byte(svg: &mut String, byte: u8) -> Result<(), AllocError>
    ensures { OnOk result (string_bytes svg.new ≡ string_bytes svg.old ++ svg_byte byte) }
{
    match byte {
        b'<' => svg.push_str("&lt;"),
        b'>' => svg.push_str("&gt;"),
        b'&' => svg.push_str("&amp;"),
        _ => svg.push(char::from(byte)),
    }
}
