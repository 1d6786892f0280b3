// Questions about the moments of calls, answered along one walk of each unit's history.
ghost use Rattle.std.specs.Prelude.{◌≡◌, ◌↔◌, ◌+◌, ◌++◌, ◌==◌, All, IsTrue, IfOk, MatchOption, OnOk, filter, length};
ghost use Rattle.std.specs.List.Sorted.{IsNonDecreasingBy};
ghost use Rattle.plain.specs.States.{state_of};
ghost use Rattle.mont_base.specs.Counting.{records_in};
ghost use Rattle.job_text.specs.PlainReport.{report_of};
ghost use Rattle.mont_check.specs.Moments.{IsMet, SomePoint};
ghost use Rattle.mont_check.specs.Points.{EpochsRise, PointsRise};
ghost use Rattle.mont_check.specs.Questions.{AllRise, AreReady, BeginBy, IsReadyFor, TellsEnded, TellsMet, TellsTried};
ghost use Rattle.mont_check.specs.Walk.{facts_of};

use crate::asked::Asked;
use crate::moments::Question;
use crate::opened_numbers::Opening;
use crate::points::{Point, closed_at, first_using, points_of};
use crate::walk::Walk;
use job_text::Report;
use mont_base::{Entry, Held, Sequence, Unit};
use plain::UnitState;
use std::alloc::{AllocError, Global};

/// Whether the answer to each question is yes. It takes n log n steps, where n is the questions and
/// the entries, and a step for each point between the first at which a question's span allows the
/// call and its unit has as little room as its cause tells, and the first at which its cause held.
pub fn are_met(
    alloc: Global,
    report: &Report,
    records: &[Sequence<Held>],
    questions: &[Question],
) -> Result<bool, AllocError>
    requires { AllRise (report_of report.now) }
    ensures { IfOk result (λ b. IsTrue b
        ↔ All (IsMet (report_of report.now) records.now) questions.now) }
{
    let units = report.histories.len();
    if questions.iter().any(|question| question.unit >= units) {
        return Ok(false);
    }
    for unit in 0..units {
        if !are_met_in(alloc, report, records, unit, questions)? {
            return Ok(false);
        }
    }
    Ok(true)
}

// Whether the answer is yes to each question that is one of the unit.
fn are_met_in(
    alloc: Global,
    report: &Report,
    records: &[Sequence<Held>],
    unit: Unit,
    questions: &[Question],
) -> Result<bool, AllocError>
    requires { AllRise (report_of report.now) }
    ensures { IfOk result (λ b. IsTrue b
        ↔ All (λ q. q.unit ≡ unit → IsMet (report_of report.now) records.now q) questions.now) }
{
    let questions = questions_of(alloc, unit, questions)?;
    if questions.is_empty() {
        return Ok(true);
    }
    let Some(base) = report.base.units.get(unit) else {
        return Ok(false);
    };
    let Some(history) = report.histories.get(unit) else {
        return Ok(false);
    };
    let records = records_in(records, unit);
    let met = are_met_along(
        alloc,
        base,
        history.as_slice(),
        records,
        questions.as_slice(),
    )?;
    Ok(met)
}

// The questions of one unit.
fn questions_of(
    alloc: Global,
    unit: Unit,
    questions: &[Question],
) -> Result<Vec<Question>, AllocError>
    ensures { IfOk result (λ v. v.items ≡ filter (λ (q : Question). q.unit == unit) questions.now) }
{
    questions
        .iter()
        .filter(|question| question.unit == unit)
        .copied()
        .collect(alloc)
}

// The records that a unit was opened with.
fn records_in(records: &[Sequence<Held>], unit: Unit) -> &[Held]
    ensures { result.now ≡ records_in records.now unit }
{
    match records.get(unit as usize) {
        Some(of_unit) => of_unit.as_slice(),
        None => &[],
    }
}

// Whether the answer is yes to each question of the unit with this history.
fn are_met_along(
    alloc: Global,
    base: &UnitState,
    history: &[Entry],
    records: &[Held],
    questions: &[Question],
) -> Result<bool, AllocError>
    requires rise { EpochsRise history.now }
    ensures { IfOk result (λ b. IsTrue b ↔ All (λ q. SomePoint (state_of base.now) history.now
        q.span q.case records.now) questions.now) }
{
    let points = points_of(alloc, base, history)?;
    let opening = Opening::new(alloc, records)?;
    let mut asked = made_ready(alloc, history, points.as_slice(), questions)?;
    asked.sort_by_key(|asked| asked.start)?;
    let met = walk_along(alloc, base, history, &opening, asked.as_slice())?;
    Ok(met)
}

// The questions, each made ready for the history of these points.
fn made_ready(
    alloc: Global,
    history: &[Entry],
    points: &[Point],
    questions: &[Question],
) -> Result<Vec<Asked>, AllocError>
    requires rise { EpochsRise history.now }
    requires as_many { length points.now ≡ length history.now + 1 }
    requires points_rise { PointsRise points.now }
    ensures { IfOk result (λ v. AreReady history.now points.now questions.now v.items) }
{
    let mut asked = Vec::new(alloc);
    for question in questions {
        asked.push(ready(history, points, *question))?;
    }
    Ok(asked)
}

// A question made ready.
fn ready(history: &[Entry], points: &[Point], question: Question) -> Asked
    requires rise { EpochsRise history.now }
    requires as_many { length points.now ≡ length history.now + 1 }
    requires points_rise { PointsRise points.now }
    ensures { IsReadyFor history.now points.now question result }
{
    let case = question.case;
    let closed = closed_at(history, points, case.clock());
    let begun = question.span.first();
    let start = match case.most_free() {
        Some(free) => {
            let used = case.slots.saturating_sub(free);
            begun.max(first_using(points, used, closed))
        }
        None => begun,
    };
    Asked {
        question,
        closed,
        start,
    }
}

// Whether each question fits some point, where they stand in the order in which they are asked. At
// each point those are tried that were begun and didn't fit before.
fn walk_along(
    alloc: Global,
    base: &UnitState,
    history: &[Entry],
    opening: &Opening,
    asked: &[Asked],
) -> Result<bool, AllocError>
    requires { IsNonDecreasingBy (λ (a : Asked). a.start) asked.now }
    ensures { IfOk result (TellsMet (state_of base.now) history.now opening.now asked.now) }
{
    let mut walk = Walk::new(base)?;
    let mut waiting = asked;
    let mut unmet = Vec::new(alloc);
    for point in 0..history.len() + 1 {
        let (begun, later) = waiting.split_at(begun_by(waiting, point as u64));
        append(&mut unmet, begun)?;
        waiting = later;
        let Some(left) = left_unmet(alloc, opening, &walk, unmet.as_slice())? else {
            return Ok(false);
        };
        unmet = left;
        if point < history.len() {
            walk.pass(alloc, &history[point])?;
        }
    }
    Ok(unmet.is_empty() && waiting.is_empty())
}

// How many of the questions are asked from this point or an earlier one.
fn begun_by(waiting: &[Asked], point: u64) -> usize
    requires { IsNonDecreasingBy (λ (a : Asked). a.start) waiting.now }
    ensures { BeginBy waiting.now point result }
{
    waiting.partition_point(|asked| asked.start <= point)
}

// Adds questions to those that are unmet.
fn append(unmet: &mut Vec<Asked>, begun: &[Asked]) -> Result<(), AllocError>
    ensures { OnOk result (unmet.new.items ≡ unmet.old.items ++ begun.now) }
{
    unmet.extend_from_slice(begun)
}

// The questions that don't fit the point that a walk is at, or none where one of these has no later
// point.
fn left_unmet(
    alloc: Global,
    opening: &Opening,
    walk: &Walk,
    unmet: &[Asked],
) -> Result<Option<Vec<Asked>>, AllocError>
    ensures { IfOk result (λ o. MatchOption o
        (TellsEnded opening.now (facts_of walk.now) unmet.now)
        (λ v. TellsTried opening.now (facts_of walk.now) unmet.now v.items)) }
{
    let mut left = Vec::new(alloc);
    for asked in unmet {
        if asked.fits(alloc, opening, walk)? {
            continue;
        }
        if asked.ends_by(walk.entries) {
            return Ok(None);
        }
        left.push(*asked)?;
    }
    Ok(Some(left))
}
