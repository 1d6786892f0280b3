// Many puts of few keys, with an advance after some of them. The put of a number has the digits of
// the number as its value, and those of its remainder by the number of keys as its key.
ghost use Rattle.std.specs.Prelude.{IfOk};
ghost use Rattle.machine_cases.specs.Working.{IsIdle};

use crate::engine::Engine;
use crate::found_records::records_of;
use crate::line_fault::LineFault;
use crate::operating::{Call, operate, tick};
use mont_base::{Change, Held, Kind, Op, Reply, Text};
use payload::{pair_body, pair_in};
use std::alloc::Global;
use std::sync::Wait;

/// How many puts there are, of how many keys, and after how many of them the clock moves on.
#[derive(Clone, Copy)]
pub struct Drawn {
    pub puts: u64,
    pub keys: u64,
    pub each: u64,
}

/// Makes all puts, on a unit without records.
pub fn put_many<R: Wait>(
    rt: &R,
    alloc: Global,
    engine: &mut Engine,
    drawn: Drawn,
) -> Result<(), LineFault>
    requires { IsIdle engine.old }
    ensures { IfOk result (λ _. IsIdle engine.new) }
{
    for number in 0..drawn.puts {
        put(rt, alloc, engine, drawn, number)?;
        let moves = number.saturating_add(1).checked_rem(drawn.each) == Some(0);
        if moves && !tick(engine)? {
            return Err(LineFault::Cut);
        }
    }
    Ok(())
}

// Makes the put of a number.
fn put<R: Wait>(
    rt: &R,
    alloc: Global,
    engine: &mut Engine,
    drawn: Drawn,
    number: u64,
) -> Result<(), LineFault>
    requires { IsIdle engine.old }
    ensures { IfOk result (λ _. IsIdle engine.new) }
{
    let records = records_of(alloc, engine.heap.layout(), &engine.region)?;
    let call = call_of(alloc, &records, drawn, number)?;
    if operate(rt, alloc, engine, &call)? {
        Ok(())
    } else {
        Err(LineFault::Cut)
    }
}

fn call_of(alloc: Global, records: &[Held], drawn: Drawn, number: u64) -> Result<Call, LineFault> {
    let key = Text::of_number(number.checked_rem(drawn.keys).unwrap_or(0));
    let value = Text::of_number(number);
    let body = pair_body(&key, &value);
    let change = match live_of(records, &key) {
        None => Change::Insert { body },
        Some(held) => Change::Replace {
            slot: held.slot,
            identity: held.label.identity,
            body,
        },
    };
    let reply = match number.checked_sub(drawn.keys) {
        None => Reply::Nothing,
        Some(before) => Reply::WasText {
            value: Text::of_number(before),
        },
    };
    Ok(Call {
        op: Op::Put { key, value },
        reply,
        changes: Vec::from_slice(alloc, &[change])?,
    })
}

// The newest record of a key, where none was removed.
fn live_of<'a>(records: &'a [Held], key: &Text) -> Option<&'a Held> {
    let mut live: Option<&Held> = None;
    for held in records {
        let newer = live.is_none_or(|other| other.label.version < held.label.version);
        if newer
            && held.label.kind != Kind::Delete
            && pair_in(&held.body).map(|p| p.0) == Some(*key)
        {
            live = Some(held);
        }
    }
    live
}
