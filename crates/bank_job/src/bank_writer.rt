// The text of a run of the bank.
ghost use Rattle.std.specs.Prelude.{◌≡◌, ◌++◌, OnOk, IfOk};
ghost use Rattle.std.specs.String.{string_bytes};
ghost use Rattle.plain.specs.States.{states_of};
ghost use Rattle.job_text.specs.Lines.{line_of, text_of};
ghost use Rattle.job_text.specs.ReportText.{image_lines};
ghost use Rattle.bank_job.specs.Bank.{bank_layout};
ghost use Rattle.bank_job.specs.BankText.{bank_text, head_words, total_words};

use crate::bank::bank_layout;
use crate::bank_report::BankReport;
use crate::bank_total::number_total;
use job_text::{write_histories, write_units};
use std::alloc::{AllocError, Global};

/// The one text of a run of the bank of a number.
pub fn write_bank(alloc: Global, number: u64, report: &BankReport) -> Result<Vec<u8>, AllocError>
    ensures { IfOk result (λ bytes. bytes.items
        ≡ bank_text number report.now.histories report.now.image_clock
        (states_of report.now.contents)) }
{
    let mut text = String::new(alloc);
    write_head(&mut text, number)?;
    write_histories(&mut text, report.histories.as_slice(), &[])?;
    write_image(&mut text, report)?;
    write_total(&mut text, number_total(&report.contents))?;
    text.push_str("end\n")?;
    Ok(text.into_bytes())
}

fn write_head(text: &mut String, number: u64) -> Result<(), AllocError>
    ensures { OnOk result
        (string_bytes text.new ≡ string_bytes text.old ++ line_of (head_words number)) }
{
    writeln!(text, "montage-bank {number}")
}

// What recovery found, and at which clock.
fn write_image(text: &mut String, report: &BankReport) -> Result<(), AllocError>
    ensures { OnOk result (string_bytes text.new ≡ string_bytes text.old
        ++ text_of (image_lines bank_layout.kinds report.now.image_clock
        (states_of report.now.contents))) }
{
    let clock = report.image_clock;
    writeln!(text, "image {clock}")?;
    let kinds = bank_layout().kinds();
    write_units(text, &kinds, report.contents.units.as_slice())
}

fn write_total(text: &mut String, total: u64) -> Result<(), AllocError>
    ensures { OnOk result
        (string_bytes text.new ≡ string_bytes text.old ++ line_of (total_words total)) }
{
    writeln!(text, "total {total}")
}
