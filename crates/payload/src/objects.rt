// The live objects among the records of a unit.
ghost use Rattle.std.specs.Prelude.{◌≡◌, ℕ, ◌==◌, ◌&&◌, ◌||◌, not, nat_lt, Some, IfOk, OnOk};
ghost use Rattle.std.specs.Ordering.{nat_cmp};
ghost use Rattle.std.specs.BTreeMap as tree;
ghost use Rattle.mont_base.specs.Versions.{live_objects, newest_of, later_of, object_of};
ghost use Rattle.payload.specs.NewestVersions.{HasNewest, is_above};

use mont_base::{Held, Kind, Object};
use std::alloc::{AllocError, Global};
use std::collections::BTreeMap;

/// The live objects of a unit: of each identity the record with the greatest version, unless that
/// is an anti-payload. They stand in the order of the records.
pub fn live_objects(alloc: Global, records: &[Held]) -> Result<Vec<Object>, AllocError>
    ensures { IfOk result (λ v. v.items ≡ live_objects records.now) }
{
    let newest = newest_versions(alloc, records)?;
    let mut live = Vec::new(alloc);
    for held in records {
        if held.label.kind != Kind::Delete && is_newest(&newest, held) {
            live.push(object_of(held))?;
        }
    }
    Ok(live)
}

// The greatest version of each identity.
fn newest_versions(alloc: Global, records: &[Held]) -> Result<BTreeMap<u64, u64>, AllocError>
    ensures { IfOk result (λ m. HasNewest m records.now) }
{
    let mut newest = BTreeMap::new(alloc);
    for held in records {
        raise(&mut newest, held.label.identity, held.label.version)?;
    }
    Ok(newest)
}

// Makes a version the newest of its identity, unless a newer one is known.
fn raise(newest: &mut BTreeMap<u64, u64>, identity: u64, version: u64) -> Result<(), AllocError>
    ensures { OnOk result ((q v : ℕ) → is_above v (tree.get nat_cmp newest.new q)
        ≡ (is_above v (tree.get nat_cmp newest.old q) || ((identity == q) && nat_lt v version))) }
{
    let known = newest.get(&identity).copied();
    if known.is_none_or(|other| other < version) {
        newest.insert(identity, version)?;
    }
    Ok(())
}

// Whether no version of the record's identity is above its own.
fn is_newest(newest: &BTreeMap<u64, u64>, held: &Held) -> bool
    ensures { result ≡ not (is_above held.now.label.version
        (tree.get nat_cmp newest.now held.now.label.identity)) }
{
    match newest.get(&held.label.identity) {
        Some(version) => *version <= held.label.version,
        None => true,
    }
}

/// The record of an identity with the greatest version, if the identity has one. Of several with
/// that version it is the first.
pub fn newest_of(identity: u64, records: &[Held]) -> Option<Held>
    ensures { result ≡ newest_of identity records.now }
{
    let mut newest = None;
    for held in records {
        if held.label.identity == identity {
            newest = Some(later_of(newest, held));
        }
    }
    newest
}

// The later version of a record that may be known and another.
fn later_of(known: Option<Held>, held: &Held) -> Held
    ensures { Some result ≡ later_of known (Some held.now) }
{
    match known {
        Some(known) if known.label.version >= held.label.version => known,
        Some(_) | None => *held,
    }
}

// The object of a live record.
fn object_of(held: &Held) -> Object
    ensures { result ≡ object_of held.now }
{
    Object {
        slot: held.slot,
        identity: held.label.identity,
        version: held.label.version,
        body: held.body,
    }
}
