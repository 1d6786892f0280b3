// The identities, versions and serials that the next change of a unit would be given.
ghost use Rattle.std.specs.Prelude.{◌≡◌, ◌↔◌, ◌+◌, ◌≤◌, IsTrue, Any};
ghost use Rattle.std.specs.Ordering.{eq_by_cmp};
ghost use Rattle.mont_base.specs.declared.constants.TheConstants.{LAST};
ghost use Rattle.mont_base.specs.Counting.{LacksVersion, greatest_by, identity_of, is_insertion, is_version_of, renewed, version_among, version_if, serial_of};
ghost use Rattle.mont_base.specs.State.{key_cmp};
ghost use Rattle.mont_base.specs.Structure.{has_edge, has_key, has_vertex};

use mont_base::{Effect, Held, LAST, Object, Text, Thing};
use payload::{edge_in, item_in, pair_in, vertex_in};

/// Whether an effect inserts a thing.
pub fn is_insertion(effect: &Effect) -> bool
    ensures { result ≡ is_insertion effect.now }
{
    matches!(effect, Effect::Inserts { .. })
}

/// The greatest identity of the records, and 0 without one.
pub fn greatest_identity(records: &[Held]) -> u64
    ensures { result ≡ greatest_by identity_of records.now }
{
    let mut greatest = 0;
    for held in records {
        greatest = greatest.max(held.label.identity);
    }
    greatest
}

/// Whether a thing is replaced or removed, whose next version would be above the last.
pub fn any_lacks_version(objects: &[Object], changed: u64, effects: &[Effect]) -> bool
    ensures { IsTrue result ↔ Any (LacksVersion objects.now changed) effects.now }
{
    effects
        .iter()
        .any(|effect| effect_lacks_version(objects, changed, effect))
}

fn effect_lacks_version(objects: &[Object], changed: u64, effect: &Effect) -> bool
    ensures { IsTrue result ↔ LacksVersion objects.now changed effect.now }
{
    match renewed(effect) {
        Some(thing) => reaches_last(version_among(objects, &thing), changed),
        None => false,
    }
}

// The thing of which an effect makes a later version.
fn renewed(effect: &Effect) -> Option<Thing>
    ensures { result ≡ renewed effect.now }
{
    match effect {
        Effect::Inserts { .. } => None,
        Effect::Replaces { thing } | Effect::Removes { thing } => Some(*thing),
    }
}

// The version that a thing has among the live objects, and 0 where it has none.
fn version_among(objects: &[Object], thing: &Thing) -> u64
    ensures { result ≡ version_among objects.now thing.now }
{
    let mut greatest = 0;
    for object in objects {
        greatest = greatest.max(version_if(thing, object));
    }
    greatest
}

fn version_if(thing: &Thing, object: &Object) -> u64
    ensures { result ≡ version_if thing.now object.now }
{
    if is_version_of(thing, object) {
        object.version
    } else {
        0
    }
}

// Whether an object is a version of the thing. In a queue any item will do.
fn is_version_of(thing: &Thing, object: &Object) -> bool
    ensures { result ≡ is_version_of thing.now object.now }
{
    match thing {
        Thing::Pair { key, .. } => has_key(object, key),
        Thing::Item { .. } => true,
        Thing::Vertex { vertex, .. } => has_vertex(object, *vertex),
        Thing::Edge { from, to, .. } => has_edge(object, *from, *to),
    }
}

fn has_key(object: &Object, key: &Text) -> bool
    ensures { result ≡ has_key key.now object.now }
{
    match pair_in(&object.body) {
        Some((held, _)) => is_same(key, &held),
        None => false,
    }
}

fn is_same(a: &Text, b: &Text) -> bool
    ensures { result ≡ eq_by_cmp key_cmp a.now b.now }
{
    a == b
}

fn has_vertex(object: &Object, vertex: u64) -> bool
    ensures { result ≡ has_vertex vertex object.now }
{
    match vertex_in(&object.body) {
        Some((held, _)) => vertex == held,
        None => false,
    }
}

fn has_edge(object: &Object, from: u64, to: u64) -> bool
    ensures { result ≡ has_edge (from, to) object.now }
{
    match edge_in(&object.body) {
        Some(((held, reached), _)) => from == held && to == reached,
        None => false,
    }
}

/// The greatest serial of the items among the live objects, and 0 without one.
pub fn greatest_serial(objects: &[Object]) -> u64
    ensures { result ≡ greatest_by serial_of objects.now }
{
    let mut greatest = 0;
    for object in objects {
        greatest = greatest.max(serial_of(object));
    }
    greatest
}

// The serial of an object, and 0 where it is no item.
fn serial_of(object: &Object) -> u64
    ensures { result ≡ serial_of object.now }
{
    match item_in(&object.body) {
        Some((serial, _)) => serial,
        None => 0,
    }
}

/// Whether a number that was given so many times since is at its end.
pub fn reaches_last(number: u64, given: u64) -> bool
    ensures { IsTrue result ↔ (LAST ≤ number + given) }
{
    number >= LAST || given >= LAST - number
}
