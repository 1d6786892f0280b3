// Whether written records are the effects of an operation.
ghost use Rattle.std.specs.Prelude.{◌≡◌, ◌↔◌, ◌+◌, ℕ, Some, IsTrue};
ghost use Rattle.std.specs.BTreeMap.{values};
ghost use Rattle.mont_base.specs.Bodies.{pair_in, vertex_in, edge_in};
ghost use Rattle.mont_base.specs.State.{Value};
ghost use Rattle.mont_laws.specs.Effects.{HasNameOf, IsBodyOf, IsFirstVersion, IsNextVersion, IsFirstItem, IsNewItem, Writes, IsEffect, AreEffects};

use crate::newest_kept::NewestKept;
use mont_base::{BODY, Effect, Held, Kind, Text, Thing, Unit};
use payload::{
    edge_body, edge_in, item_body, item_in, no_body, pair_body, pair_in, vertex_body, vertex_in,
};

// Whether the written records of a unit are these effects, one for each, in their order, each
// judged on the newest records before all of them.
pub fn are_effects(unit: Unit, newest: &NewestKept, effects: &[Effect], written: &[Held]) -> bool
    ensures { IsTrue result ↔ AreEffects unit (values newest.now.records) effects.now written.now }
{
    if effects.len() != written.len() {
        return false;
    }
    for (at, held) in written.iter().enumerate() {
        if !is_effect(unit, newest, &effects[at], held) {
            return false;
        }
    }
    true
}

// Whether a record of the unit is what an effect writes.
fn is_effect(unit: Unit, newest: &NewestKept, effect: &Effect, held: &Held) -> bool
    ensures { IsTrue result ↔ IsEffect unit (values newest.now.records) effect.now held.now }
{
    held.label.unit == unit && is_written(newest, effect, held)
}

fn is_written(newest: &NewestKept, effect: &Effect, held: &Held) -> bool
    ensures { IsTrue result ↔ Writes (values newest.now.records) effect.now held.now }
{
    match effect {
        Effect::Inserts { thing } => is_insertion(newest, thing, held),
        Effect::Replaces { thing } => is_replacement(newest, thing, held),
        Effect::Removes { thing } => is_removal(newest, thing, held),
    }
}

fn is_insertion(newest: &NewestKept, thing: &Thing, held: &Held) -> bool
    ensures { IsTrue result
        ↔ Writes (values newest.now.records) (Effect.Inserts thing.now) held.now }
{
    held.label.kind == Kind::New
        && is_first_version(newest, held)
        && is_body_of(newest, thing, &held.body)
}

fn is_replacement(newest: &NewestKept, thing: &Thing, held: &Held) -> bool
    ensures { IsTrue result
        ↔ Writes (values newest.now.records) (Effect.Replaces thing.now) held.now }
{
    held.label.kind == Kind::Copy
        && is_next_version(newest, thing, held)
        && is_body_of(newest, thing, &held.body)
}

fn is_removal(newest: &NewestKept, thing: &Thing, held: &Held) -> bool
    ensures { IsTrue result
        ↔ Writes (values newest.now.records) (Effect.Removes thing.now) held.now }
{
    held.label.kind == Kind::Delete
        && is_next_version(newest, thing, held)
        && held.body == no_body()
}

// Whether the record is the first version of an identity that no record has.
fn is_first_version(newest: &NewestKept, held: &Held) -> bool
    ensures { IsTrue result ↔ IsFirstVersion (values newest.now.records) held.now }
{
    newest.get(held.label.identity).is_none() && held.label.version == 1
}

// Whether the record is the next version of the live identity that has the name of a thing.
fn is_next_version(newest: &NewestKept, thing: &Thing, held: &Held) -> bool
    ensures { IsTrue result ↔ IsNextVersion (values newest.now.records) thing.now held.now }
{
    match newest.live(held.label.identity) {
        Some(last) => {
            follows(last.label.version, held.label.version)
                && has_name_of(newest, thing, &last.body)
        }
        None => false,
    }
}

// Whether a version is one more than another.
fn follows(last: u64, version: u64) -> bool
    ensures { IsTrue result ↔ (version ≡ last + 1) }
{
    version > 0 && version - 1 == last
}

// Whether a body holds what has the name of a thing.
fn has_name_of(newest: &NewestKept, thing: &Thing, body: &[u64; BODY]) -> bool
    ensures { IsTrue result ↔ HasNameOf (values newest.now.records) thing.now body.now }
{
    match thing {
        Thing::Pair { key, .. } => is_pair(key, body),
        Thing::Item { item } => is_first_item(newest, *item, body),
        Thing::Vertex { vertex, .. } => is_vertex(*vertex, body),
        Thing::Edge { from, to, .. } => is_edge(*from, *to, body),
    }
}

// Whether a body holds a pair with a key.
fn is_pair(key: &Text, body: &[u64; BODY]) -> bool
    ensures { IsTrue result ↔ ((old : Value) × (pair_in body.now ≡ Some (key.now, old))) }
{
    match pair_in(body) {
        Some((held, _value)) => held == *key,
        None => false,
    }
}

// Whether a body holds a vertex.
fn is_vertex(vertex: u64, body: &[u64; BODY]) -> bool
    ensures { IsTrue result ↔ ((old : ℕ) × (vertex_in body.now ≡ Some (vertex, old))) }
{
    match vertex_in(body) {
        Some((held, _attribute)) => held == vertex,
        None => false,
    }
}

// Whether a body holds an edge from one vertex to another.
fn is_edge(from: u64, to: u64, body: &[u64; BODY]) -> bool
    ensures { IsTrue result ↔ ((old : ℕ) × (edge_in body.now ≡ Some ((from, to), old))) }
{
    match edge_in(body) {
        Some(((held_from, held_to), _attribute)) => held_from == from && held_to == to,
        None => false,
    }
}

// Whether a body holds the first item of the queue, and it is this one.
fn is_first_item(newest: &NewestKept, item: u64, body: &[u64; BODY]) -> bool
    ensures { IsTrue result ↔ IsFirstItem (values newest.now.records) item body.now }
{
    match item_in(body) {
        Some((serial, held)) => held == item && newest.is_least_serial(serial),
        None => false,
    }
}

// Whether a body is that of a thing.
fn is_body_of(newest: &NewestKept, thing: &Thing, body: &[u64; BODY]) -> bool
    ensures { IsTrue result ↔ IsBodyOf (values newest.now.records) thing.now body.now }
{
    match thing {
        Thing::Pair { key, value } => *body == pair_body(key, value),
        Thing::Item { item } => is_new_item(newest, *item, body),
        Thing::Vertex { vertex, attribute } => *body == vertex_body(*vertex, *attribute),
        Thing::Edge {
            from,
            to,
            attribute,
        } => *body == edge_body((*from, *to), *attribute),
    }
}

// Whether a body is that of an item with a new serial.
fn is_new_item(newest: &NewestKept, item: u64, body: &[u64; BODY]) -> bool
    ensures { IsTrue result ↔ IsNewItem (values newest.now.records) item body.now }
{
    let serial = body[0];
    *body == item_body(serial, item) && newest.is_new_serial(serial)
}
