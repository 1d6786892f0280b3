// What an operation on a key is answered, and the change that makes its effect, found without
// memory.
ghost use Rattle.std.specs.Prelude.{◌≡◌, None, IfSome};
ghost use Rattle.mont_base.specs.declared.effect.Thing.TheVariants.{Pair};
ghost use Rattle.mont_base.specs.State.{earlier_text};
ghost use Rattle.structure_call.specs.Planning.{NamesThing};
ghost use Rattle.shard_map.specs.MapShard.{IsMapUnit};
ghost use Rattle.shard_map.specs.MapPlan.{HasValue, key_asked, value_found, setting, removal};

use index_kit::Index;
use mont_base::{BODY, Change, Op, Reply, Slot, Text};
use payload::value_in;
use slots::Region;

/// The value of a key, with the slot and the identity of its live record.
#[derive(Clone, Copy)]
pub struct Found {
    pub value: Text,
    pub slot: Slot,
    pub identity: u64,
}

// What the live record of a key says, if the key is there. Where a caller was cut in the unit it
// may be anything.
#[inline(always)]
pub(crate) fn find<I: Index>(region: &Region, index: &I, key: &Text) -> Option<Found>
    requires unit { IsMapUnit region.now (I.places index.now) }
    ensures value { region.now.books.halted ≡ None
        → HasValue region.now key.now (value_found result) }
    ensures named { region.now.books.halted ≡ None → IfSome result (λ found.
        NamesThing region.now.seat.known.part.records (Pair key.now found.value) found.slot
        found.identity) }
{
    let slot = index.find(*key)?;
    let held = region.find_record(slot)?;
    let value = value_in(&held.body)?;
    Some(Found {
        value,
        slot,
        identity: held.label.identity,
    })
}

// The same of the key that an operation asks for; none where it asks for none.
#[inline(always)]
pub(crate) fn find_asked<I: Index>(region: &Region, index: &I, op: &Op) -> Option<Found>
    requires unit { IsMapUnit region.now (I.places index.now) }
    ensures value { IfSome (key_asked op.now) (λ key. region.now.books.halted ≡ None
        → HasValue region.now key (value_found result)) }
    ensures named { IfSome (key_asked op.now) (λ key. region.now.books.halted ≡ None
        → IfSome result (λ found. NamesThing region.now.seat.known.part.records
        (Pair key found.value) found.slot found.identity)) }
    ensures none { key_asked op.now ≡ None → result ≡ None }
{
    match op {
        Op::Put { key, .. }
        | Op::Get { key }
        | Op::Del { key }
        | Op::OPut { key, .. }
        | Op::OGet { key, .. }
        | Op::ODel { key, .. } => find(region, index, key),
        _ => None,
    }
}

// What an operation on a key is answered: the value that it had.
pub(crate) fn reply_of(found: &Option<Found>) -> Reply
    ensures { result ≡ earlier_text (value_found found.now) }
{
    match found {
        Some(found) => Reply::WasText { value: found.value },
        None => Reply::Nothing,
    }
}

// The change that sets the pair of a key.
pub(crate) fn setting(found: &Option<Found>, body: [u64; BODY]) -> Change
    ensures { result ≡ setting found.now body }
{
    match found {
        Some(found) => Change::Replace {
            slot: found.slot,
            identity: found.identity,
            body,
        },
        None => Change::Insert { body },
    }
}

// The change that takes a key out, if it is there.
pub(crate) fn removal(found: &Option<Found>) -> Option<Change>
    ensures { result ≡ removal found.now }
{
    match found {
        Some(found) => Some(Change::Remove {
            slot: found.slot,
            identity: found.identity,
        }),
        None => None,
    }
}
