// The lines of one caller of a job.
ghost use Rattle.std.specs.Prelude.{◌≡◌, All, IfOk, OnErr};
ghost use Rattle.mont_base.specs.Faults.{Rose};
ghost use Rattle.heap.specs.GateAsked.{IsAskedOften};
ghost use Rattle.job_text.specs.declared.job.Line.{Line as LineModel};
ghost use Rattle.job_text.specs.Report.{lines_by};
ghost use Rattle.caller.specs.Continued.{GoesOn, IsUnanswered};
ghost use Rattle.job_worker.specs.Ending.{MayBeAsked};
ghost use Rattle.job_worker.specs.Worked.{HasWorked, was_cut};

use crate::asks::Asks;
use crate::carried_lines::carry_out_line;
use crate::outcomes::is_cut;
use job_text::{Line, Outcome};
use std::alloc::{AllocError, Global};
use std::sync::Wait;

/// Carries out those of the lines that are one caller's, in their order, and answers what came of
/// each. A caller that is cut carries no further line out.
///
/// Where memory is refused, what was done so far stands.
pub fn work<R: Wait, P, S: Asks<P>>(
    rt: &R,
    alloc: Global,
    store: &S,
    pass: &mut P,
    caller: u64,
    lines: &[Line],
) -> Result<Vec<Outcome>, AllocError>
    requires pass { S.has store.now pass.old }
    requires unanswered { IsUnanswered (S.known pass.old) }
    requires lines { All (λ (l : LineModel). MayBeAsked (S.opening store.now).layout l.deed)
        lines.now }
    ensures pass { S.has store.now pass.new }
    ensures goes_on { GoesOn (S.known pass.old) (S.known pass.new) }
    ensures gate { IsAskedOften S.cuts S.endless pass.old pass.new (was_cut result) }
    ensures worked { IfOk result (λ outcomes. HasWorked (S.opening store.now)
        (Rose (S.cuts pass.old) (S.cuts pass.new)) (S.known pass.old) (S.known pass.new)
        (lines_by caller lines.now) outcomes.items) }
    ensures uncut { OnErr result ((S.known pass.new).part.cuts ≡ (S.known pass.old).part.cuts) }
{
    let mut outcomes = Vec::new(alloc);
    for line in lines {
        if line.caller != caller {
            continue;
        }
        outcomes.reserve(1)?;
        let outcome = carry_out_line(rt, store, pass, &line.deed)?;
        outcomes.push_reserved(outcome);
        if is_cut(&outcome) {
            break;
        }
    }
    Ok(outcomes)
}
