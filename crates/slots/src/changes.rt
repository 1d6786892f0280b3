// The record that a change writes, and whether there are numbers for changes.
ghost use Rattle.std.specs.Prelude.{◌≡◌, ◌+◌, All, length};
ghost use Rattle.std.specs.List.{list_any};
ghost use Rattle.mont_base.specs.declared.constants.TheConstants.{BODY};
ghost use Rattle.mont_laws.specs.SlotReadings.{IsRecordOf};
ghost use Rattle.slots.specs.Books.{Agrees, record_in};
ghost use Rattle.slots.specs.WrittenRecords.{CanPut, NamesLive, first_end, ends_version, greatest_version, is_insert, slot_named, version_in, kind_by, identity_by, body_by};
ghost use Rattle.slots.specs.Putting.{MayWrite, put_by};

use crate::region::Region;
use mont_base::{BODY, Change, Epoch, Held, Kind, LAST, Label, Slot, Which};
use payload::no_body;

impl Region {
    /// Which number an entry with these changes would be given above the last one. A serial is
    /// asked for only where `serial` says so. Call numbers aren't the region's.
    pub fn count_end(&self, changes: &[Change], serial: bool) -> Option<Which>
        requires agrees { Agrees self.now }
        requires named { All (NamesLive self.now.seat.known.part.records) changes.now }
        ensures { result
            ≡ first_end self.now.books self.now.seat.known.part.records changes.now serial }
    {
        let inserts = changes.iter().filter(|change| is_insert(change)).count() as u64;
        if self.books.places > LAST {
            Some(Which::Place)
        } else if inserts > (LAST + 1).saturating_sub(self.books.identity) {
            Some(Which::Identity)
        } else if self.any_ends(changes) {
            Some(Which::Version)
        } else if serial && self.books.serial > LAST {
            Some(Which::Serial)
        } else {
            None
        }
    }

    // Whether there is a change without a number for its next version.
    fn any_ends(&self, changes: &[Change]) -> bool
        requires agrees { Agrees self.now }
        requires named { All (NamesLive self.now.seat.known.part.records) changes.now }
        ensures { result
            ≡ list_any (ends_version self.now.seat.known.part.records) changes.now }
    {
        for change in changes {
            if self.ends_version(change) {
                return true;
            }
        }
        false
    }

    // Whether there is no number for the next version.
    fn ends_version(&self, change: &Change) -> bool
        requires agrees { Agrees self.now }
        requires named { NamesLive self.now.seat.known.part.records change.now }
        ensures { result ≡ ends_version self.now.seat.known.part.records change.now }
    {
        match slot_before(change) {
            Some(slot) => LAST <= self.version_at(slot),
            None => false,
        }
    }

    // The version of the record in a slot; 0 where there is none.
    pub(crate) fn version_at(&self, slot: Slot) -> u64
        requires { Agrees self.now }
        ensures { result ≡ version_in (record_in self.now.seat.known.part.records slot) }
    {
        match self.books.find(slot) {
            Some(held) => held.label.version,
            None => 0,
        }
    }

    // The identity of the record that a change writes.
    fn identity_of(&self, change: &Change) -> u64
        ensures { result ≡ identity_by self.now.books.identity change.now }
    {
        match change {
            Change::Insert { .. } => self.books.identity,
            Change::Replace { identity, .. } => *identity,
            Change::Remove { identity, .. } => *identity,
        }
    }

    // Its version.
    fn version_of(&self, change: &Change) -> u64
        requires agrees { Agrees self.now }
        requires may { CanPut self.now.books self.now.seat.known.part.records change.now }
        ensures { result ≡ greatest_version (identity_by self.now.books.identity change.now)
            self.now.seat.known.part.records + 1 }
    {
        match slot_before(change) {
            Some(slot) => self.version_at(slot) + 1,
            None => 1,
        }
    }

    // The record that a change writes into a slot.
    pub(crate) fn record_by(&self, change: &Change, epoch: Epoch, slot: Slot) -> Held
        requires agrees { Agrees self.now }
        requires registered { MayWrite self.now.seat.known.part epoch }
        requires may { CanPut self.now.books self.now.seat.known.part.records change.now }
        ensures record_is { result ≡ put_by self.now change.now epoch slot }
        ensures valid { IsRecordOf self.now.books.unit result }
    {
        let label = Label {
            epoch,
            kind: kind_of(change),
            unit: self.unit(),
            identity: self.identity_of(change),
            version: self.version_of(change),
        };
        Held {
            slot,
            label,
            body: body_of(change),
        }
    }
}

// What the record that a change writes is among its identity's.
fn kind_of(change: &Change) -> Kind
    ensures { result ≡ kind_by change.now }
{
    match change {
        Change::Insert { .. } => Kind::New,
        Change::Replace { .. } => Kind::Copy,
        Change::Remove { .. } => Kind::Delete,
    }
}

// Its body.
fn body_of(change: &Change) -> [u64; BODY]
    ensures words { result ≡ body_by change.now }
    ensures long { length result ≡ BODY }
{
    match change {
        Change::Insert { body } => whole(body),
        Change::Replace { body, .. } => whole(body),
        Change::Remove { .. } => no_body(),
    }
}

// A body has as many words as any.
#[inline(always)]
fn whole(body: &[u64; BODY]) -> [u64; BODY]
    ensures same { result ≡ body.now }
    ensures long { length result ≡ BODY }
{
    *body
}

// Whether a change adds an object.
fn is_insert(change: &Change) -> bool
    ensures { result ≡ is_insert change.now }
{
    matches!(change, Change::Insert { .. })
}

// The slot of the version that a change supersedes.
pub(crate) fn slot_before(change: &Change) -> Option<Slot>
    ensures { result ≡ slot_named change.now }
{
    match change {
        Change::Insert { .. } => None,
        Change::Replace { slot, .. } => Some(*slot),
        Change::Remove { slot, .. } => Some(*slot),
    }
}
