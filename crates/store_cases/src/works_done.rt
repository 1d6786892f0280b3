// What callers do with a store, line by line, and what is told of it.
use crate::drawn_work::draw;
use crate::plain_units::agrees;
use crate::scene::Scene;
use crate::script_fault::ScriptFault;
use crate::script_words::{number_in, op_in, text_in};
use crate::scripted_caller::Caller;
use crate::shift_words::tell_shift_refusal;
use crate::told_calls::{tell_receipt, tell_refusal, tell_sync, tell_tick};
use heap_pass::HeapName;
use index_kit::Index;
use mont_base::{Fuel, PairList, Receipt};
use std::sync::Wait;
use store::Store;

/// Does what each line up to the stop says.
pub fn do_works<R: Wait, N: HeapName, I: Index>(
    rt: &R,
    scene: &mut Scene<'_>,
    store: &Store<N, I>,
    callers: &mut [Caller<N>],
) -> Result<(), ScriptFault> {
    for line in scene.unread() {
        scene.read = scene.read.saturating_add(1);
        if *line == "stop" {
            return Ok(());
        }
        do_work(rt, scene, store, callers, line)?;
    }
    Err(ScriptFault::Place)
}

fn do_work<R: Wait, N: HeapName, I: Index>(
    rt: &R,
    scene: &mut Scene<'_>,
    store: &Store<N, I>,
    callers: &mut [Caller<N>],
    line: &str,
) -> Result<(), ScriptFault> {
    let (caller, asked) = line.split_once(' ').ok_or(ScriptFault::Unclear)?;
    let caller = number_in(caller)?;
    if let Some(other) = asked.strip_prefix("tells ") {
        return tell_other(scene, store, callers, caller, number_in(other)?);
    }
    let caller = caller_at(callers, caller)?;
    if let Some(steps) = asked.strip_prefix("fuel ") {
        caller.set_gate(Fuel::new(scene.steps(steps)?));
        return Ok(());
    }
    if asked == "endless" {
        caller.set_gate(Fuel::endless());
        return Ok(());
    }
    write!(scene.told, "{line}: ")?;
    ask(rt, scene, store, caller, asked)?;
    Ok(writeln!(scene.told)?)
}

fn caller_at<N: HeapName>(
    callers: &mut [Caller<N>],
    number: u64,
) -> Result<&mut Caller<N>, ScriptFault> {
    callers.get_mut(number as usize).ok_or(ScriptFault::Caller)
}

// A caller tells another what it has seen.
fn tell_other<N: HeapName, I: Index>(
    scene: &Scene<'_>,
    store: &Store<N, I>,
    callers: &mut [Caller<N>],
    caller: u64,
    other: u64,
) -> Result<(), ScriptFault> {
    let news = caller_at(callers, caller)?.tell(scene.alloc, store)?;
    caller_at(callers, other)?.hear(store, news);
    Ok(())
}

// A caller asks something of the store, and is told what came of it.
fn ask<R: Wait, N: HeapName, I: Index>(
    rt: &R,
    scene: &mut Scene<'_>,
    store: &Store<N, I>,
    caller: &mut Caller<N>,
    asked: &str,
) -> Result<(), ScriptFault> {
    let words: Vec<&str> = asked.split(' ').collect(scene.alloc)?;
    match words.as_slice() {
        ["tick"] => Ok(tell_tick(&mut scene.told, caller.tick(rt, store))?),
        ["sync"] => Ok(tell_sync(&mut scene.told, caller.sync(rt, store))?),
        ["shift", from, to, amount] => shift(rt, scene, store, caller, from, to, amount),
        [how @ ("draws" | "tries"), many, seed, names] => {
            draw(
                rt,
                scene,
                store,
                caller,
                [many, seed, names],
                *how == "draws",
            )
        }
        _ => call(rt, scene, store, caller, asked),
    }
}

// A caller makes an operation.
fn call<R: Wait, N: HeapName, I: Index>(
    rt: &R,
    scene: &mut Scene<'_>,
    store: &Store<N, I>,
    caller: &mut Caller<N>,
    asked: &str,
) -> Result<(), ScriptFault> {
    let Some(op) = op_in(asked) else {
        return Err(ScriptFault::Unclear);
    };
    let mut pairs = PairList::empty();
    match caller.call(rt, store, &op, &mut pairs) {
        Some(Ok(receipt)) => tell_answered(scene, &receipt, &pairs),
        Some(Err(refusal)) => Ok(tell_refusal(&mut scene.told, refusal)?),
        None => Err(ScriptFault::Operation),
    }
}

// A caller shifts an amount.
fn shift<R: Wait, N: HeapName, I: Index>(
    rt: &R,
    scene: &mut Scene<'_>,
    store: &Store<N, I>,
    caller: &mut Caller<N>,
    from: &str,
    to: &str,
    amount: &str,
) -> Result<(), ScriptFault> {
    let (Some(from), Some(to)) = (text_in(from), text_in(to)) else {
        return Err(ScriptFault::Unclear);
    };
    let amount = number_in(amount)?;
    match caller.shift(rt, store, from, to, amount) {
        Some(Ok((out, into))) => {
            tell_answered(scene, &out, &PairList::empty())?;
            write!(scene.told, ", ")?;
            tell_answered(scene, &into, &PairList::empty())
        }
        Some(Err(refusal)) => Ok(tell_shift_refusal(&mut scene.told, scene.alloc, refusal)?),
        None => Err(ScriptFault::Operation),
    }
}

// Tells an answer, and whether the plain structures make another of the operation.
fn tell_answered(
    scene: &mut Scene<'_>,
    receipt: &Receipt,
    pairs: &PairList,
) -> Result<(), ScriptFault> {
    tell_receipt(&mut scene.told, scene.alloc, receipt, pairs)?;
    if !agrees(scene.plain.as_mut_slice(), receipt, pairs)? {
        write!(scene.told, ", and not in a plain structure")?;
    }
    Ok(())
}
