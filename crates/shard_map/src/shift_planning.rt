// How a shift is planned, or refused before memory is taken.
ghost use Rattle.std.specs.Prelude.{◌≡◌, [], ◌∷◌, false, None, IfOk, OnOk, IfErr, IfSome};
ghost use Rattle.mont_base.specs.declared.effect.Thing.TheVariants.{Pair};
ghost use Rattle.slots.specs.Books.{Agrees};
ghost use Rattle.slots.specs.WrittenRecords.{NamesLive};
ghost use Rattle.structure_call.specs.Planning.{adds_item, NamesThing};
ghost use Rattle.shard_map.specs.MapPlan.{HasValue, value_found};
ghost use Rattle.shard_map.specs.MapShard.{IsMapUnit};
ghost use Rattle.shard_map.specs.MapShift.{CannotShift, KeepBoth, KeepsKey, MayShift, TellsMark, end_of_pair, put_planned};
ghost use Rattle.shard_map.specs.PairCarrying.{IsPlanned};

use crate::map_plan::{Found, reply_of, setting};
use crate::map_shard::MapShard;
use crate::moved_numbers::{in_order, moved};
use crate::pair_carrying::PlannedChange;
use crate::shift_refusal::ShiftRefusal;
use heap::Ticket;
use index_kit::Index;
use mont_base::{Change, LAST, Op, Text, Which};
use payload::pair_body;
use slots::Region;

// Plans the two puts of a shift, that of the lower unit first, or says why there is none.
pub(crate) fn plan_shift<I: Index, J: Index>(
    low: &MapShard<I>,
    high: &MapShard<J>,
    ticket: &Ticket,
    up: bool,
    from: &Text,
    to: &Text,
    amount: u64,
) -> Result<(PlannedChange, PlannedChange), ShiftRefusal>
    requires keys { KeepBoth up low.now.region high.now.region from.now to.now }
    ensures planned { IfOk result (λ plans. MayShift up low.now.region high.now.region
        ticket.now.known.part from.now to.now amount plans) }
    ensures refused { IfErr result (λ why. CannotShift up low.now.region high.now.region
        ticket.now.known.part from.now to.now amount why) }
    ensures low { IsMapUnit low.now.region low.now.places }
    ensures high { IsMapUnit high.now.region high.now.places }
{
    check_marks(&low.region, &high.region)?;
    let (low_key, high_key) = in_order(up, *from, *to);
    let (low_found, high_found) = (low.find(&low_key), high.find(&high_key));
    let (out, into) = in_order(up, value_of(&low_found), value_of(&high_found));
    let (less, more) = moved(from, to, out, into, amount)?;
    let (low_number, high_number) = in_order(up, less, more);
    let low_plan = put_planned(low, &low_key, &low_found, low_number);
    let high_plan = put_planned(high, &high_key, &high_found, high_number);
    let (low_change, high_change) = (low_plan.change, high_plan.change);
    match end_of_pair(&low.region, &high.region, ticket, low_change, high_change) {
        Some(which) => Err(ShiftRefusal::CountEnd { which }),
        None => Ok((low_plan, high_plan)),
    }
}

// Refuses where a caller was cut in one of the units, the lower one first.
fn check_marks(low: &Region, high: &Region) -> Result<(), ShiftRefusal>
    ensures ok { OnOk result ((low.now.books.halted ≡ None) × (high.now.books.halted ≡ None)) }
    ensures marked { IfErr result (λ why. TellsMark low.now high.now why) }
{
    if let Some(by) = low.halted() {
        return Err(ShiftRefusal::Halted {
            unit: low.unit(),
            by,
        });
    }
    if let Some(by) = high.halted() {
        return Err(ShiftRefusal::Halted {
            unit: high.unit(),
            by,
        });
    }
    Ok(())
}

// The value that was found, if one was.
fn value_of(found: &Option<Found>) -> Option<Text>
    ensures { result ≡ value_found found.now }
{
    match found {
        Some(found) => Some(found.value),
        None => None,
    }
}

// Plans to put the digits of a number under a key of the unit, of which this was found.
fn put_planned<I: Index>(
    unit: &MapShard<I>,
    key: &Text,
    found: &Option<Found>,
    number: u64,
) -> PlannedChange
    requires running { unit.now.region.books.halted ≡ None }
    requires key { KeepsKey unit.now.region key.now }
    requires value { HasValue unit.now.region key.now (value_found found.now) }
    requires named { IfSome found.now (λ one. NamesThing unit.now.region.seat.known.part.records
        (Pair key.now one.value) one.slot one.identity) }
    ensures is { result ≡ put_planned key.now found.now number }
    ensures planned { IsPlanned unit.now.region result }
{
    let value = Text::of_number(number);
    let (_unit, _key, _value) = (unit.region(), key.len(), value.len());
    PlannedChange {
        op: Op::Put { key: *key, value },
        reply: reply_of(found),
        change: setting(found, pair_body(key, &value)),
    }
}

// The first number that both would be given above the last one: of two calls of the caller, then of
// the lower unit, then of the higher one.
fn end_of_pair(
    low: &Region,
    high: &Region,
    ticket: &Ticket,
    low_change: Change,
    high_change: Change,
) -> Option<Which>
    requires low { Agrees low.now × NamesLive low.now.seat.known.part.records low_change }
    requires high { Agrees high.now × NamesLive high.now.seat.known.part.records high_change }
    requires low_serial { adds_item low.now.books (low_change ∷ []) ≡ false }
    requires high_serial { adds_item high.now.books (high_change ∷ []) ≡ false }
    ensures { result ≡ end_of_pair ticket.now.known.part low.now high.now low_change
        high_change }
{
    if ticket.calls() >= LAST {
        return Some(Which::Call);
    }
    match low.count_end(&[low_change], false) {
        Some(which) => Some(which),
        None => high.count_end(&[high_change], false),
    }
}
