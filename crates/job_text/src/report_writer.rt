// The text of a report.
ghost use Rattle.std.specs.Prelude.{◌≡◌, ◌++◌, OnOk, IfOk};
ghost use Rattle.std.specs.String.{string_bytes};
ghost use Rattle.plain.specs.States.{states_of};
ghost use Rattle.job_text.specs.Lines.{text_of};
ghost use Rattle.job_text.specs.ReportText.{base_lines, image_lines, report_text};
ghost use Rattle.job_text.specs.PlainReport.{report_of};

use crate::contents_writer::write_units;
use crate::header::write_report_header;
use crate::history_writer::{write_histories, write_outcomes};
use crate::report::Report;
use mont_base::{Epoch, Kinds};
use plain::Contents;
use std::alloc::{AllocError, Global};

/// The one text of a report.
pub fn write_report(alloc: Global, report: &Report) -> Result<Vec<u8>, AllocError>
    ensures { IfOk result (λ bytes. bytes.items ≡ report_text (report_of report.now)) }
{
    let mut text = String::new(alloc);
    write_report_header(&mut text, &report.layout, report.callers)?;
    let kinds = report.layout.kinds();
    write_base(&mut text, &kinds, report.base_clock, &report.base)?;
    write_histories(
        &mut text,
        report.histories.as_slice(),
        report.runs.as_slice(),
    )?;
    write_outcomes(&mut text, report.outcomes.as_slice())?;
    write_image(&mut text, &kinds, report.image_clock, &report.contents)?;
    text.push_str("end\n")?;
    Ok(text.into_bytes())
}

// What the store held when the run began.
fn write_base(
    text: &mut String,
    kinds: &Kinds,
    clock: Epoch,
    base: &Contents,
) -> Result<(), AllocError>
    ensures { OnOk result (string_bytes text.new
        ≡ string_bytes text.old ++ text_of (base_lines kinds.now clock (states_of base.now))) }
{
    writeln!(text, "base {clock}")?;
    write_units(text, kinds, base.units.as_slice())
}

// What the crash leaves.
fn write_image(
    text: &mut String,
    kinds: &Kinds,
    clock: Epoch,
    contents: &Contents,
) -> Result<(), AllocError>
    ensures { OnOk result (string_bytes text.new
        ≡ string_bytes text.old ++ text_of (image_lines kinds.now clock (states_of contents.now))) }
{
    writeln!(text, "image {clock}")?;
    write_units(text, kinds, contents.units.as_slice())
}
