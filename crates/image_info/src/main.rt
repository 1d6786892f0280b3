//! Shows an image without recovering it: its version, layout, clock and cut, what the slots of each
//! unit hold, the records of each epoch, and every fault. The image is read on standard input.
#![tactic(auto)]

mod all_faults;
mod all_records;
mod epoch_counts;
mod graph_faults;
mod info;
mod item_faults;
mod object_faults;
mod old_pair_faults;
mod pair_faults;
mod repeat_faults;
mod showing;
mod slot_faults;
mod told_lines;
mod trouble;
mod unit_counts;
mod wide_words;

ghost use Rattle.std.specs.Process.{exit_status};
ghost use Rattle.image_info.specs.Process.{CameOf, Ends};

use mont_base::{Sink, Source};
use process_devices::{StdSink, StdSource};
use showing::show;
use std::io;
use std::process::ExitCode;
use trouble::{Trouble, exit_code};

fn main(rt: HostRuntime) -> ExitCode {
    let mut image = StdSource::new(rt.reader());
    let mut out = StdSink::new(io::writer(&rt));
    end_process(&rt, &mut image, &mut out)
}

// Shows the image of a source, says on standard error why it can't, and ends with the exit code of
// what came of it.
fn end_process<R: AllocGlobal + Eprint, S: Source, O: Sink>(
    rt: &R,
    image: &mut S,
    out: &mut O,
) -> ExitCode
    ensures { Ends (CameOf S.Source O.Sink image.old image.new out.old out.new)
        (exit_status result) }
{
    let shown = show(rt.alloc(), image, out);
    if let Err(trouble) = &shown {
        let _ = say(rt, *trouble);
    }
    ExitCode::from(exit_code(&shown))
}

// Says on standard error why nothing is shown. Where standard output fails, the exit code alone
// tells it.
fn say(rt: &impl Eprint, trouble: Trouble) -> io::Result<()> {
    match trouble {
        Trouble::NoImage { fault } => eprintln!(rt; "image_info: {fault}"),
        Trouble::Read => eprintln!(rt; "image_info: read fault"),
        Trouble::Memory => eprintln!(rt; "image_info: out of memory"),
        Trouble::Write => Ok(()),
    }
}
