// The summary of a run of the generated job.
ghost use Rattle.std.specs.Prelude.{◌≡◌, ◌++◌, IfOk, OnOk};
ghost use Rattle.std.specs.String.{string_bytes};
ghost use Rattle.plain.specs.States.{states_of};
ghost use Rattle.job_text.specs.Lines.{line_of};
ghost use Rattle.big_job.specs.Summary.{count_words, last_words, summary_text};
ghost use Rattle.big_job.specs.Totals.{totals_of};

use crate::totals::Totals;
use plain::Contents;
use std::alloc::{AllocError, Global};

/// The summary of a run of the job of a number: how many lines the job had and how many of them
/// were answered, what recovery found, and whether the clock came to its end.
pub fn big_summary(
    alloc: Global,
    number: u64,
    contents: &Contents,
    lines: u64,
    answered: u64,
    clock_end: bool,
) -> Result<Vec<u8>, AllocError>
    ensures { IfOk result (λ bytes. bytes.items
        ≡ summary_text number lines answered (totals_of (states_of contents.now)) clock_end) }
{
    let totals = Totals::of(contents)?;
    let mut text = String::new(alloc);
    write_count(&mut text, "montage-big", number)?;
    write_count(&mut text, "lines", lines)?;
    write_count(&mut text, "answered", answered)?;
    write_count(&mut text, "keys", totals.keys)?;
    write_count(&mut text, "items", totals.items)?;
    write_count(&mut text, "vertices", totals.vertices)?;
    write_count(&mut text, "edges", totals.edges)?;
    write_count(&mut text, "sum", totals.sum)?;
    write_end(&mut text, clock_end)?;
    Ok(text.into_bytes())
}

fn write_count(text: &mut String, name: &str, count: u64) -> Result<(), AllocError>
    ensures { OnOk result (string_bytes text.new
        ≡ string_bytes text.old ++ line_of (count_words name.now count)) }
{
    writeln!(text, "{name} {count}")
}

fn write_end(text: &mut String, clock_end: bool) -> Result<(), AllocError>
    ensures { OnOk result (string_bytes text.new
        ≡ string_bytes text.old ++ line_of (last_words clock_end)) }
{
    if clock_end {
        writeln!(text, "clockend")
    } else {
        writeln!(text, "end")
    }
}
