// How calls on a heap are made that lines tell, one a line. All are of its first unit, and of its
// one caller.
//
//     put 1 10 = none: insert     an operation with its reply, and after a colon what it does to
//                                 records, with `, ` between: `insert` (of a queue with the
//                                 serial), `replace SLOT IDENTITY`, `remove SLOT IDENTITY`
//     get 1 = was 10              one that changes nothing
//     abandon 3                   an operation that needs three slots is begun and given up
//     advance                     an advance of the clock
//     durable                     the caller loads the durable clock
//     reclaim                     closes what the durable clock lets be closed; it is counted alone
ghost use Rattle.std.specs.Prelude.{◌≡◌, true, IfOk};
ghost use Rattle.machine_cases.specs.Working.{IsIdle, CanBeStopped};

use crate::engine::Engine;
use crate::event_lines::answer_in;
use crate::line_fault::LineFault;
use crate::line_numbers::{first_word, numbers_of};
use crate::operating::{Call, answer_read, give_up, operate, reclaim, see_durable, tick};
use mont_base::{BODY, Change, Op};
use payload::{edge_body, item_body, no_body, pair_body, vertex_body};
use std::alloc::Global;
use std::sync::Wait;

/// Makes the calls in their order, and tells whether the gate let all their steps be made.
pub fn play<R: Wait>(
    rt: &R,
    alloc: Global,
    engine: &mut Engine,
    lines: &str,
) -> Result<bool, LineFault>
    requires { IsIdle engine.old }
    ensures made { IfOk result (λ made. made ≡ true → IsIdle engine.new) }
    ensures home { IfOk result (λ _. CanBeStopped engine.new) }
{
    for line in lines.lines() {
        if !follow(rt, alloc, engine, line)? {
            return Ok(false);
        }
    }
    Ok(true)
}

// Makes a call, and tells whether the gate let all its steps be made.
fn follow<R: Wait>(
    rt: &R,
    alloc: Global,
    engine: &mut Engine,
    line: &str,
) -> Result<bool, LineFault>
    requires { IsIdle engine.old }
    ensures made { IfOk result (λ made. made ≡ true → IsIdle engine.new) }
    ensures home { IfOk result (λ _. CanBeStopped engine.new) }
{
    let (kind, words) = first_word(line);
    match kind {
        "advance" => tick(engine),
        "durable" => Ok(see_durable(engine)),
        "abandon" => give_up(rt, engine, numbers_of(words)?[0]),
        _ => {
            let call = call_of(alloc, line)?;
            if call.changes.is_empty() {
                answer_read(alloc, engine, &call.op, &call.reply)
            } else {
                operate(rt, alloc, engine, &call)
            }
        }
    }
}

/// Makes the last call, and tells the same.
pub fn is_made<R: Wait>(
    rt: &R,
    alloc: Global,
    engine: &mut Engine,
    line: &str,
) -> Result<bool, LineFault>
    requires { IsIdle engine.old }
{
    if line == "reclaim" {
        Ok(reclaim(engine))
    } else {
        follow(rt, alloc, engine, line)
    }
}

// The operation of a line, and what it does to records.
fn call_of(alloc: Global, line: &str) -> Result<Call, LineFault> {
    let (asked, done) = line.split_once(": ").unwrap_or((line, ""));
    let (op, reply) = answer_in(asked)?;
    let mut changes = Vec::new(alloc);
    if !done.is_empty() {
        push_changes(&mut changes, &op, done)?;
    }
    Ok(Call { op, reply, changes })
}

fn push_changes(changes: &mut Vec<Change>, op: &Op, done: &str) -> Result<(), LineFault> {
    for told in done.split(", ") {
        changes.push(change_of(op, told)?)?;
    }
    Ok(())
}

fn change_of(op: &Op, told: &str) -> Result<Change, LineFault> {
    let (kind, words) = first_word(told);
    let [first, second, ..] = numbers_of(words)?;
    let body = body_of(op, first);
    match kind {
        "insert" => Ok(Change::Insert { body }),
        "replace" => Ok(Change::Replace {
            slot: first,
            identity: second,
            body,
        }),
        "remove" => Ok(Change::Remove {
            slot: first,
            identity: second,
        }),
        _ => Err(LineFault::Unclear),
    }
}

// The body that an operation writes, of an item with this serial.
fn body_of(op: &Op, serial: u64) -> [u64; BODY] {
    match op {
        Op::Put { key, value } => pair_body(key, value),
        Op::Enq { item, .. } => item_body(serial, *item),
        Op::AddV { vertex, attr, .. } => vertex_body(*vertex, *attr),
        Op::AddE { from, to, attr, .. } => edge_body((*from, *to), *attr),
        _ => no_body(),
    }
}
