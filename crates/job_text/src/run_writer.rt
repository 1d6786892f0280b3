// The lines of a report that tell the entries of a history, with the runs of its ranges.
ghost use Rattle.std.specs.Prelude.{◌≡◌, ◌++◌, ◌∷◌, map, OnOk};
ghost use Rattle.std.specs.String.{string_bytes};
ghost use Rattle.std.specs.List.{enumerate_from, flat_map};
ghost use Rattle.job_text.specs.Lines.{text_of, line_of};
ghost use Rattle.job_text.specs.Spelling.{run_words};
ghost use Rattle.job_text.specs.Runs.{spelled, has_run, first_run, runs_behind};
ghost use Rattle.job_text.specs.ReportText.{entry_words};

use crate::number_row::{ROW, entry_head};
use crate::report::Run;
use crate::spelling::{OpWords, ReplyWords};
use crate::text_word::TextWord;
use mont_base::{Entry, Reply, Text};
use std::alloc::AllocError;

/// A line for each entry.
pub fn write_entries(text: &mut String, history: &[Entry], runs: &[Run]) -> Result<(), AllocError>
    ensures { OnOk result (string_bytes text.new ≡ string_bytes text.old
        ++ text_of (map (λ p. entry_words p.0 p.1)
        (enumerate_from 0 (spelled history.now runs.now)))) }
{
    let mut left = runs;
    for (place, entry) in history.iter().enumerate() {
        let (run, behind) = next_run(&entry.reply, left);
        write_entry(text, place, entry, run)?;
        left = behind;
    }
    Ok(())
}

// The run beside a reply, and the runs that are left.
fn next_run<'a>(reply: &Reply, runs: &'a [Run]) -> (&'a [(Text, Text)], &'a [Run])
    ensures run { result.0.now ≡ first_run (has_run reply.now) runs.now }
    ensures left { result.1.now ≡ runs_behind (has_run reply.now) runs.now }
{
    match (reply, runs) {
        (Reply::Pairs { .. }, [run, behind @ ..]) => (run.as_slice(), behind),
        _ => (&[], runs),
    }
}

fn write_entry(
    text: &mut String,
    place: usize,
    entry: &Entry,
    run: &[(Text, Text)],
) -> Result<(), AllocError>
    ensures { OnOk result (string_bytes text.new
        ≡ string_bytes text.old ++ line_of (entry_words place (entry.now, run.now))) }
{
    let mut held = [0; ROW];
    let head = entry_head(place as u64, entry, &mut held);
    text.push_str(head)?;
    let (op, reply) = (OpWords(&entry.op), ReplyWords(&entry.reply));
    write!(text, "{op} = {reply}")?;
    write_run(text, run)?;
    text.push_str("\n")?;
    Ok(())
}

// The words of a run, each after a space.
fn write_run(text: &mut String, run: &[(Text, Text)]) -> Result<(), AllocError>
    ensures { OnOk result (string_bytes text.new
        ≡ string_bytes text.old ++ flat_map (λ word. 32 ∷ word) (run_words run.now)) }
{
    for (key, value) in run {
        let (key, value) = (TextWord(*key), TextWord(*value));
        write!(text, " {key} {value}")?;
    }
    Ok(())
}
