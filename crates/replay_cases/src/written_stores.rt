// The stores by which a unit writes the records of an operation's effects, into free slots.
use core_steps::{Core, Event, UnitPart};
use mont_base::{BODY, Effect, Epoch, FIELDS, Held, LABEL, Object, Slot, Thing, Unit};
use payload::{
    edge_body, edge_in, item_body, item_in, live_objects, no_body, pair_body, pair_in, vertex_body,
    vertex_in,
};
use std::alloc::{AllocError, Global};

/// Adds the stores to a plan, one after the other. It answers whether each effect has a record and
/// a slot for it.
pub fn push_stores(
    alloc: Global,
    plan: &mut Vec<Event>,
    core: &Core,
    unit: Unit,
    epoch: Epoch,
    effects: &[Effect],
) -> Result<bool, AllocError> {
    let Some(part) = core.units.get(unit) else {
        return Ok(false);
    };
    let live = live_objects(alloc, part.records.as_slice())?;
    let mut next = 0;
    for effect in effects {
        let slot = free_slot(core, part, unit, next);
        let told = told_of(part.records.as_slice(), &live, effect);
        let (Some(slot), Some(told)) = (slot, told) else {
            return Ok(false);
        };
        push_record(plan, unit, epoch, slot, &told)?;
        next = slot.saturating_add(1);
    }
    Ok(true)
}

// The first slot of a unit from this one on that is closed in both memories and in no record.
fn free_slot(core: &Core, part: &UnitPart, unit: Unit, first: Slot) -> Option<Slot> {
    for slot in first..core.layout.total() {
        let label = slot.saturating_mul(FIELDS as u64).saturating_add(1);
        if core.layout.unit_of_slot(slot) == unit
            && core.cur.get(label) == Some(&0)
            && core.dur.get(label) == Some(&0)
            && part.records.as_slice().iter().all(|held| held.slot != slot)
        {
            return Some(slot);
        }
    }
    None
}

// Stores the words of a record, the epoch last.
fn push_record(
    plan: &mut Vec<Event>,
    unit: Unit,
    epoch: Epoch,
    slot: Slot,
    told: &Told,
) -> Result<(), AllocError> {
    let mut words = [0; FIELDS];
    words[0] = epoch;
    words[1] = unit.saturating_add(told.kind);
    words[2] = told.identity;
    words[3] = told.version;
    words[LABEL..].copy_from_slice(&told.body);
    for place in 1..=FIELDS {
        let field = place % FIELDS;
        plan.push(Event::Store {
            unit,
            slot,
            field: field as u64,
            value: words[field],
        })?;
    }
    Ok(())
}

// What a record says, whichever its unit, epoch and slot are.
#[derive(Clone, Copy)]
struct Told {
    // 256 times the number of its kind.
    kind: u64,
    identity: u64,
    version: u64,
    body: [u64; BODY],
}

// What the record says that an effect writes.
fn told_of(records: &[Held], live: &[Object], effect: &Effect) -> Option<Told> {
    let (kind, identity, version, body) = match effect {
        Effect::Inserts { thing } => (256, next_identity(records), 1, thing_body(records, thing)),
        Effect::Replaces { thing } => {
            let (identity, version) = next_version(live, thing)?;
            (512, identity, version, thing_body(records, thing))
        }
        Effect::Removes { thing } => {
            let (identity, version) = next_version(live, thing)?;
            (768, identity, version, no_body())
        }
    };
    Some(Told {
        kind,
        identity,
        version,
        body,
    })
}

// One more than the greatest identity.
fn next_identity(records: &[Held]) -> u64 {
    let mut greatest = 0;
    for held in records {
        greatest = held.label.identity.max(greatest);
    }
    greatest.saturating_add(1)
}

// One more than the greatest serial, where the records are those of a queue.
fn next_serial(records: &[Held]) -> u64 {
    let mut greatest = 0;
    for held in records {
        greatest = held.body[0].max(greatest);
    }
    greatest.saturating_add(1)
}

// The identity of the live object that has the name of a thing, and its next version. Of several
// items it is the first.
fn next_version(live: &[Object], thing: &Thing) -> Option<(u64, u64)> {
    let mut found: Option<&Object> = None;
    for object in live {
        let first = found.is_none_or(|other| object.body[0] < other.body[0]);
        if first && has_name(thing, &object.body) {
            found = Some(object);
        }
    }
    let found = found?;
    Some((found.identity, found.version.saturating_add(1)))
}

// Whether a body has the name of a thing; each item has that of the first.
fn has_name(thing: &Thing, body: &[u64; BODY]) -> bool {
    match thing {
        Thing::Pair { key, .. } => pair_in(body).is_some_and(|pair| pair.0 == *key),
        Thing::Item { .. } => item_in(body).is_some(),
        Thing::Vertex { vertex, .. } => vertex_in(body).is_some_and(|found| found.0 == *vertex),
        Thing::Edge { from, to, .. } => edge_in(body).is_some_and(|edge| edge.0 == (*from, *to)),
    }
}

fn thing_body(records: &[Held], thing: &Thing) -> [u64; BODY] {
    match thing {
        Thing::Pair { key, value } => pair_body(key, value),
        Thing::Item { item } => item_body(next_serial(records), *item),
        Thing::Vertex { vertex, attribute } => vertex_body(*vertex, *attribute),
        Thing::Edge {
            from,
            to,
            attribute,
        } => edge_body((*from, *to), *attribute),
    }
}
