// The records by which a change of a plain structure is written.
use case_file::Unanswered;
use mont_base::{BODY, Effect, Epoch, Held, Kind, Label, Object, Thing, Unit};
use payload::{
    edge_body, edge_in, item_body, item_in, live_objects, no_body, pair_body, pair_in, vertex_body,
    vertex_in,
};
use std::alloc::{AllocError, Global};

/// The label and the body by which an effect is written in a unit with these records.
pub fn record_of(
    alloc: Global,
    records: &[Held],
    unit: Unit,
    epoch: Epoch,
    effect: Effect,
) -> Result<(Label, [u64; BODY]), Unanswered> {
    let live = live_objects(alloc, records)?;
    let live = live.as_slice();
    match effect {
        Effect::Inserts { thing } => {
            let label = Label {
                epoch,
                kind: Kind::New,
                unit,
                identity: next_identity(records),
                version: 1,
            };
            Ok((label, body_of(&thing, next_serial(live))))
        }
        Effect::Replaces { thing } => {
            let label = label_behind(live, &thing, unit, epoch, Kind::Copy)?;
            Ok((label, body_of(&thing, 0)))
        }
        Effect::Removes { thing } => {
            let label = label_behind(live, &thing, unit, epoch, Kind::Delete)?;
            Ok((label, no_body()))
        }
    }
}

// The label of the next record of a thing's live object.
fn label_behind(
    live: &[Object],
    thing: &Thing,
    unit: Unit,
    epoch: Epoch,
    kind: Kind,
) -> Result<Label, Unanswered> {
    let object = object_of(live, thing)?;
    Ok(Label {
        epoch,
        kind,
        unit,
        identity: object.identity,
        version: object.version.saturating_add(1),
    })
}

// One more than the greatest identity of the records.
fn next_identity(records: &[Held]) -> u64 {
    let mut greatest = 0;
    for held in records {
        greatest = held.label.identity.max(greatest);
    }
    greatest.saturating_add(1)
}

// One more than the greatest serial of the live items.
fn next_serial(live: &[Object]) -> u64 {
    let mut greatest = 0;
    for object in live {
        let (serial, _) = item_in(&object.body).unwrap_or((0, 0));
        greatest = serial.max(greatest);
    }
    greatest.saturating_add(1)
}

// The body of a thing.
fn body_of(thing: &Thing, serial: u64) -> [u64; BODY] {
    match thing {
        Thing::Pair { key, value } => pair_body(key, value),
        Thing::Item { item } => item_body(serial, *item),
        Thing::Vertex { vertex, attribute } => vertex_body(*vertex, *attribute),
        Thing::Edge {
            from,
            to,
            attribute,
        } => edge_body((*from, *to), *attribute),
    }
}

// The live object of a thing; of an item, the first in its queue.
fn object_of(live: &[Object], thing: &Thing) -> Result<Object, Unanswered> {
    let mut found = None;
    let mut first = u64::MAX;
    for object in live {
        match thing {
            Thing::Item { .. } => {
                let (serial, _) = item_in(&object.body).unwrap_or((u64::MAX, 0));
                if serial < first {
                    first = serial;
                    found = Some(*object);
                }
            }
            _ if is_of(object, thing) => found = Some(*object),
            _ => {}
        }
    }
    found.ok_or(Unanswered::Unclear { head: "chains" })
}

// Whether an object is of what has the thing's name.
fn is_of(object: &Object, thing: &Thing) -> bool {
    match thing {
        Thing::Pair { key, .. } => pair_in(&object.body).is_some_and(|pair| pair.0 == *key),
        Thing::Item { .. } => false,
        Thing::Vertex { vertex, .. } => vertex_in(&object.body).is_some_and(|it| it.0 == *vertex),
        Thing::Edge { from, to, .. } => {
            edge_in(&object.body).is_some_and(|edge| edge.0 == (*from, *to))
        }
    }
}
