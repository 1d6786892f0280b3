// The lines of a report that tell the histories of its units and the outcomes of its callers.
ghost use Rattle.std.specs.Prelude.{◌≡◌, ◌++◌, [], map, get_or, OnOk};
ghost use Rattle.std.specs.String.{string_bytes};
ghost use Rattle.job_text.specs.Lines.{line_of, text_of};
ghost use Rattle.job_text.specs.Runs.{spelled, spelled_all};
ghost use Rattle.job_text.specs.ReportText.{history_lines, histories_lines, outcome_words, caller_lines, outcomes_lines};

use crate::number_row::{ROW, answered_line};
use crate::outcome::Outcome;
use crate::report::Run;
use crate::run_writer::write_entries;
use mont_base::{Entry, Sequence};
use std::alloc::AllocError;

/// The histories of all units, and their runs.
pub fn write_histories(
    text: &mut String,
    histories: &[Sequence<Entry>],
    runs: &[Sequence<Run>],
) -> Result<(), AllocError>
    ensures { OnOk result (string_bytes text.new ≡ string_bytes text.old
        ++ text_of (histories_lines (spelled_all histories.now runs.now))) }
{
    for (unit, history) in histories.iter().enumerate() {
        write_history(text, unit, history.as_slice(), runs_of_unit(runs, unit))?;
    }
    Ok(())
}

// The runs of a unit, which are none where there is no such unit.
fn runs_of_unit(runs: &[Sequence<Run>], unit: usize) -> &[Run]
    ensures { result.now ≡ get_or runs.now unit [] }
{
    match runs.get(unit) {
        Some(own) => own.as_slice(),
        None => &[],
    }
}

/// The outcomes of all callers.
pub fn write_outcomes(text: &mut String, outcomes: &[Sequence<Outcome>]) -> Result<(), AllocError>
    ensures { OnOk result (string_bytes text.new
        ≡ string_bytes text.old ++ text_of (outcomes_lines outcomes.now)) }
{
    for (caller, of_caller) in outcomes.iter().enumerate() {
        write_caller(text, caller, of_caller.as_slice())?;
    }
    Ok(())
}

fn write_history(
    text: &mut String,
    unit: usize,
    history: &[Entry],
    runs: &[Run],
) -> Result<(), AllocError>
    ensures { OnOk result (string_bytes text.new ≡ string_bytes text.old
        ++ text_of (history_lines unit (spelled history.now runs.now))) }
{
    let length = history.len();
    writeln!(text, "unit {unit} {length}")?;
    write_entries(text, history, runs)
}

fn write_caller(text: &mut String, caller: usize, outcomes: &[Outcome]) -> Result<(), AllocError>
    ensures { OnOk result (string_bytes text.new
        ≡ string_bytes text.old ++ text_of (caller_lines caller outcomes.now)) }
{
    let length = outcomes.len();
    writeln!(text, "caller {caller} {length}")?;
    write_each_outcome(text, outcomes)
}

fn write_each_outcome(text: &mut String, outcomes: &[Outcome]) -> Result<(), AllocError>
    ensures { OnOk result (string_bytes text.new
        ≡ string_bytes text.old ++ text_of (map outcome_words outcomes.now)) }
{
    for outcome in outcomes {
        write_outcome(text, outcome)?;
    }
    Ok(())
}

// Most outcomes are answered calls, whose line is one piece.
fn write_outcome(text: &mut String, outcome: &Outcome) -> Result<(), AllocError>
    ensures { OnOk result (string_bytes text.new
        ≡ string_bytes text.old ++ line_of (outcome_words outcome.now)) }
{
    let Outcome::At { unit, place } = *outcome else {
        writeln!(text, "{outcome}")?;
        return Ok(());
    };
    let mut held = [0; ROW];
    let line = answered_line(unit, place, &mut held);
    text.push_str(line)
}
