// The text of contents alone, as recovery finds them.
ghost use Rattle.std.specs.Prelude.{◌≡◌, ◌++◌, OnOk, IfOk};
ghost use Rattle.std.specs.String.{string_bytes};
ghost use Rattle.plain.specs.States.{states_of};
ghost use Rattle.job_text.specs.Lines.{line_of};
ghost use Rattle.job_text.specs.ReportText.{contents_header_words, contents_text};

use crate::contents_writer::write_units;
use crate::spelling::Letters;
use mont_base::{Epoch, Layout};
use plain::Contents;
use std::alloc::{AllocError, Global};

/// The one text of the contents of a store of this layout at a clock.
pub fn write_contents(
    alloc: Global,
    layout: Layout,
    clock: Epoch,
    contents: &Contents,
) -> Result<Vec<u8>, AllocError>
    ensures { IfOk result
        (λ bytes. bytes.items ≡ contents_text layout clock (states_of contents.now)) }
{
    let mut text = String::new(alloc);
    write_contents_header(&mut text, &layout, clock)?;
    write_units(&mut text, &layout.kinds(), contents.units.as_slice())?;
    text.push_str("end\n")?;
    Ok(text.into_bytes())
}

fn write_contents_header(text: &mut String, layout: &Layout, clock: Epoch) -> Result<(), AllocError>
    ensures { OnOk result (string_bytes text.new
        ≡ string_bytes text.old ++ line_of (contents_header_words layout.now clock)) }
{
    let kinds = layout.kinds();
    let letters = Letters(kinds.as_slice());
    let slots = layout.slots();
    writeln!(text, "montage-contents 3 {letters} {slots} {clock}")
}
