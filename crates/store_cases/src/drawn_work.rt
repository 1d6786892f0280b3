// Operations that a caller makes as they are drawn, beside the plain structures.
use crate::drawn_calls::CallDraws;
use crate::plain_units::agrees;
use crate::scene::Scene;
use crate::script_fault::ScriptFault;
use crate::script_words::number_in;
use crate::scripted_caller::Caller;
use heap_pass::HeapName;
use index_kit::Index;
use mont_base::{CallRefusal, Op, PairList, Receipt};
use plain::UnitState;
use std::sync::Wait;
use store::Store;

// After so many operations the caller moves the clock on.
const TICK_BEHIND: u64 = 10;

/// Makes so many operations, of a seed, on names below a number. Tells of how many the plain
/// structures agree, or only of how many they differ.
pub fn draw<R: Wait, N: HeapName, I: Index>(
    rt: &R,
    scene: &mut Scene<'_>,
    store: &Store<N, I>,
    caller: &mut Caller<N>,
    words: [&str; 3],
    whole: bool,
) -> Result<(), ScriptFault> {
    let [many, seed, names] = words;
    let many = number_in(many)?;
    let mut draws = CallDraws::of_seed(number_in(seed)?, number_in(names)?);
    let plain = scene.plain.as_mut_slice();
    let [agree, differ, refused] = draw_calls(rt, store, caller, plain, &mut draws, many)?;
    if whole {
        write!(
            scene.told,
            "{agree} agree, {differ} differ, {refused} refused"
        )?;
    } else {
        write!(scene.told, "{differ} differ")?;
    }
    Ok(())
}

// Makes so many operations. Of how many the plain structures agree, of how many they differ, and
// how many were refused.
fn draw_calls<R: Wait, N: HeapName, I: Index>(
    rt: &R,
    store: &Store<N, I>,
    caller: &mut Caller<N>,
    plain: &mut [UnitState],
    draws: &mut CallDraws,
    many: u64,
) -> Result<[u64; 3], ScriptFault> {
    let layout = store.heap().layout();
    let (mut agree, mut differ, mut refused) = (0u64, 0u64, 0u64);
    for made in 0..many {
        let Some(op) = draws.op(&layout) else {
            return Err(ScriptFault::Operation);
        };
        match draw_call(rt, store, caller, plain, &op)? {
            Some(true) => agree = agree.saturating_add(1),
            Some(false) => differ = differ.saturating_add(1),
            None => refused = refused.saturating_add(1),
        }
        if made % TICK_BEHIND == TICK_BEHIND - 1 {
            let _ticked = caller.tick(rt, store);
        }
    }
    Ok([agree, differ, refused])
}

// Makes an operation that is drawn, and so do the plain structures. Whether these agree, unless it
// is refused.
fn draw_call<R: Wait, N: HeapName, I: Index>(
    rt: &R,
    store: &Store<N, I>,
    caller: &mut Caller<N>,
    plain: &mut [UnitState],
    op: &Op,
) -> Result<Option<bool>, ScriptFault> {
    let mut pairs = PairList::empty();
    match call_until_roomy(rt, store, caller, op, &mut pairs) {
        Some(Ok(receipt)) => Ok(Some(agrees(plain, &receipt, &pairs)?)),
        Some(Err(_refusal)) => Ok(None),
        None => Err(ScriptFault::Operation),
    }
}

// Makes an operation, and once more after a sync where the unit is full.
fn call_until_roomy<R: Wait, N: HeapName, I: Index>(
    rt: &R,
    store: &Store<N, I>,
    caller: &mut Caller<N>,
    op: &Op,
    pairs: &mut PairList,
) -> Option<Result<Receipt, CallRefusal>> {
    let answer = caller.call(rt, store, op, pairs);
    if !matches!(answer, Some(Err(CallRefusal::Full { .. }))) || caller.sync(rt, store).is_err() {
        return answer;
    }
    caller.call(rt, store, op, pairs)
}
