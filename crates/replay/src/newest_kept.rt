// The newest record of each identity of a unit, kept along while the unit writes.
ghost use Rattle.std.specs.Prelude.{◌≡◌, ◌↔◌, ◌++◌, ℕ, All, IsTrue, IfOk, OnOk};
ghost use Rattle.std.specs.Ordering.{nat_cmp};
ghost use Rattle.std.specs.BTreeMap as tree;
ghost use Rattle.mont_base.specs.Versions.{newest_of, later_of, only_of};
ghost use Rattle.mont_laws.specs.Records.{live_of};
ghost use Rattle.mont_laws.specs.Effects.{IsNewSerial, IsLeastSerial};
ghost use Rattle.core_answer.specs.Newest.{IsKeyed, HaveSameNewest, live_serial, IsNewer, IsSerialBelow, IsSerialFrom};

use mont_base::{Held, Kind, LAST};
use payload::item_in;
use std::alloc::{AllocError, Global};
use std::collections::BTreeMap;

/// Of each identity among the records of a unit the one with the greatest version; of two, the one
/// that stands first.
#[derive(Drop)]
pub struct NewestKept {
    pub records: BTreeMap<u64, Held>,
    ghost keyed: { IsKeyed records },
}

impl NewestKept {
    /// The newest among these records.
    pub fn among(alloc: Global, records: &[Held]) -> Result<NewestKept, AllocError>
        ensures { IfOk result (λ n. HaveSameNewest (tree.values n.records) records.now) }
    {
        let mut newest = NewestKept {
            records: BTreeMap::new(alloc),
        };
        for held in records {
            newest.keep(held)?;
        }
        Ok(newest)
    }

    /// Keeps a record that stands after all others, unless one of its identity is known that isn't
    /// older.
    pub fn keep(&mut self, held: &Held) -> Result<(), AllocError>
        ensures { OnOk result ((q : ℕ) → newest_of q (tree.values self.new.records)
            ≡ later_of (newest_of q (tree.values self.old.records)) (only_of q held.now)) }
    {
        let known = self.get(held.label.identity);
        if is_newer(known, held) {
            self.records.insert(held.label.identity, *held)?;
        }
        Ok(())
    }

    /// The newest record of an identity.
    pub fn get(&self, identity: u64) -> Option<Held>
        ensures { result ≡ newest_of identity (tree.values self.now.records) }
    {
        let _records = self.records.len();
        self.records.get(&identity).copied()
    }

    /// The live record of an identity.
    pub fn live(&self, identity: u64) -> Option<Held>
        ensures { result ≡ live_of identity (tree.values self.now.records) }
    {
        let newest = self.get(identity)?;
        (newest.label.kind != Kind::Delete).then_some(newest)
    }

    /// Whether a serial is above those of all live items.
    pub fn is_new_serial(&self, serial: u64) -> bool
        ensures { IsTrue result ↔ IsNewSerial (tree.values self.now.records) serial }
    {
        let _records = self.records.len();
        (1..=LAST).contains(&serial) && self.all_are_below(serial)
    }

    /// Whether no live item has a lower serial.
    pub fn is_least_serial(&self, serial: u64) -> bool
        ensures { IsTrue result ↔ IsLeastSerial (tree.values self.now.records) serial }
    {
        let _records = self.records.len();
        self.all_are_from(serial)
    }

    fn all_are_below(&self, serial: u64) -> bool
        ensures { IsTrue result ↔ All (IsSerialBelow serial) (tree.values self.now.records) }
    {
        self.records.values().all(|held| is_below(held, serial))
    }

    fn all_are_from(&self, serial: u64) -> bool
        ensures { IsTrue result ↔ All (IsSerialFrom serial) (tree.values self.now.records) }
    {
        self.records.values().all(|held| is_at_least(held, serial))
    }
}

// Whether the record is newer than the one that is known, if one is.
fn is_newer(known: Option<Held>, held: &Held) -> bool
    ensures { IsTrue result ↔ IsNewer known held.now }
{
    match known {
        Some(known) => known.label.version < held.label.version,
        None => true,
    }
}

// Whether the record has no serial, or a lower one.
fn is_below(held: &Held, serial: u64) -> bool
    ensures { IsTrue result ↔ IsSerialBelow serial held.now }
{
    match live_serial(held) {
        Some(other) => other < serial,
        None => true,
    }
}

// Whether the record has no serial, or one that isn't lower.
fn is_at_least(held: &Held, serial: u64) -> bool
    ensures { IsTrue result ↔ IsSerialFrom serial held.now }
{
    match live_serial(held) {
        Some(other) => serial <= other,
        None => true,
    }
}

// The serial of a live item.
fn live_serial(held: &Held) -> Option<u64>
    ensures { result ≡ live_serial held.now }
{
    if held.label.kind == Kind::Delete {
        return None;
    }
    let (serial, _item) = item_in(&held.body)?;
    Some(serial)
}
