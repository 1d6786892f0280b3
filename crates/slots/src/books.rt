// What a region keeps of its unit's slots: the records by their slots, and the slots in the order
// in which they are used.
ghost use Rattle.std.specs.Prelude.{◌≡◌, ◌+◌, ◌-◌, ◌*◌, ◌<◌, ◌≤◌, [], ◌∷◌, ◌++◌, length, drop, false, slice_set, slice_get, slice_index_or, Some, None, IsTrue, IfSome, MatchOption, IfOk, IsSome, All, if◌then◌else◌};
ghost use Rattle.std.specs.List.{flat_map};
ghost use Rattle.std.specs.Option.{option_copied};
ghost use Rattle.std.specs.VecDeque.{deque_capacity};
ghost use Rattle.mont_base.specs.declared.constants.TheConstants.{LAST};
ghost use Rattle.mont_base.specs.Image.{slots_of};
ghost use Rattle.mont_base.specs.Layout.{IsLayout, unit_of_slot, units_of};
ghost use Rattle.slots.specs.Books.{row_at};
ghost use Rattle.slots.specs.RegionBeginning.{fresh_books};
ghost use Rattle.slots.specs.WrittenRecords.{is_insert, has_serial, serial_in, identity_after, serial_after};
ghost use Rattle.slots.specs.Reclaiming.{first_due};
ghost use Rattle.slots.specs.Rooms.{first_slot, placed, retired_with, at_front, settled, IsOwnSlot, IsInRows};

use heap::InSlot;
use mont_base::{Change, Epoch, Held, Kind, Layout, Slot, Unit, UnitKind};
use mont_laws::Retired;
use std::alloc::{AllocError, Global};
use std::collections::VecDeque;
use std::marker::Model;

/// A record that was written in an epoch that the unit hasn't left, with the slot of the version
/// before it.
#[derive(Clone, Copy, Debug, PartialEq, Eq)]
pub struct Written {
    pub held: Held,
    pub before: Option<Slot>,
}

impl InSlot for Written {
    ghost in_slot = { λ w. w.held.slot };

    fn slot(&self) -> Slot {
        self.held.slot
    }
}

// All lists have room for as many slots as the unit has.
#[derive(Drop)]
pub(crate) struct Books {
    pub(crate) layout: Layout,
    pub(crate) unit: Unit,
    // Of each slot of the unit, in their order, the record that stands in it.
    pub(crate) rows: Vec<Option<Held>>,
    pub(crate) free: VecDeque<Slot>,
    pub(crate) retired: VecDeque<Retired>,
    pub(crate) lost: VecDeque<Slot>,
    pub(crate) written: Vec<Written>,
    // The numbers that the next new object and the next item are given.
    pub(crate) identity: u64,
    pub(crate) serial: u64,
    pub(crate) places: u64,
    pub(crate) newest: Epoch,
    // The label of the first lost slot is closed, but not yet durably.
    pub(crate) sweeping: bool,
    pub(crate) halted: Option<u64>,
}

impl Model for Books {
    ghost use Rattle.std.specs.Prelude.{length};
    ghost use Rattle.std.specs.Vec.{vec_capacity};
    ghost use Rattle.std.specs.VecDeque.{deque_capacity};
    ghost use Rattle.slots.specs.Books.{BooksShown};
    ghost use Rattle.slots.specs.Rooms.{HasRooms};

    ghost Value = { BooksShown };

    ghost view = { λ b. record {
      layout = b.layout;
      unit = b.unit;
      rows = b.rows.items;
      free = b.free.items;
      retired = b.retired.items;
      lost = b.lost.items;
      written = b.written.items;
      identity = b.identity;
      serial = b.serial;
      places = b.places;
      newest = b.newest;
      sweeping = b.sweeping;
      halted = b.halted;
    } };

    ghost invariant = { λ b. HasRooms b.layout b.unit (length b.rows.items)
        (deque_capacity b.free) (deque_capacity b.retired) (vec_capacity b.written) };
}

impl Books {
    // The books of a unit of which nothing is stored.
    pub(crate) fn fresh(alloc: Global, layout: Layout, unit: Unit) -> Result<Books, AllocError>
        requires { unit < units_of layout }
        ensures books { IfOk result (λ b. b ≡ fresh_books layout unit) }
        ensures layout { IfOk result (λ _. IsLayout layout) }
    {
        let slots = layout.slots() as usize;
        let free = all_slots(alloc, layout, unit)?;
        Ok(Books {
            layout,
            unit,
            rows: vec![in alloc; None; slots]?,
            free,
            retired: VecDeque::with_capacity(alloc, slots)?,
            lost: VecDeque::new(alloc),
            written: Vec::with_capacity(alloc, slots)?,
            identity: 1,
            serial: 1,
            places: 0,
            newest: 0,
            sweeping: false,
            halted: None,
        })
    }

    // What was written in the epoch that the unit hasn't left.
    pub(crate) fn written(&self) -> &[Written]
        ensures { result.now ≡ self.now.written }
    {
        &self.written
    }

    // The record of a slot's row; none where the slot is another unit's.
    pub(crate) fn find(&self, slot: Slot) -> Option<&Held>
        ensures { option_copied result ≡ row_at self.now slot }
    {
        let place = slot.checked_sub(self.unit * self.layout.slots())?;
        let row = self.rows.get(place as usize)?;
        row.as_ref()
    }

    // The place of a slot among those of the unit.
    pub(crate) fn place(&self, slot: Slot) -> usize
        requires { unit_of_slot self.now.layout slot ≡ self.now.unit }
        ensures place { result ≡ slot - first_slot self.now.layout self.now.unit }
        ensures inside { result < length self.now.rows }
    {
        (slot - self.unit * self.layout.slots()) as usize
    }

    // The first free slot.
    pub(crate) fn first_free(&self) -> Slot
        requires { 0 < length self.now.free }
        ensures { at_front self.now.free ≡ Some result }
    {
        self.free[0]
    }

    // The first lost slot, if there is one.
    pub(crate) fn first_lost(&self) -> Option<Slot>
        ensures { result ≡ at_front self.now.lost }
    {
        self.lost.front().copied()
    }

    // The first retired slot, if it may be closed where this is the durable clock.
    pub(crate) fn first_due(&self, clock: Epoch) -> Option<Slot>
        ensures { result ≡ first_due clock self.now.retired }
    {
        let first = *self.retired.front()?;
        (clock >= 2 && first.epoch <= clock - 2).then_some(first.slot)
    }

    // The first free slot was written whole.
    pub(crate) fn put(&mut self, written: Written, change: &Change)
        requires room { length self.old.written < self.old.layout.slots }
        requires identity { IsTrue (is_insert change.now) → self.old.identity ≤ LAST }
        requires serial { IsTrue (has_serial self.old.layout self.old.unit change.now)
            → serial_in change.now ≤ LAST }
        ensures { self.new ≡ record self.old {
          free = drop 1 self.old.free;
          written = self.old.written ++ written ∷ [];
          identity = identity_after self.old.identity change.now;
          serial = serial_after self.old change.now;
        } }
    {
        self.free.pop_front();
        self.written.push_reserved(written);
        if let Change::Insert { body } = change {
            self.identity += 1;
            if matches!(self.layout.kind(self.unit), UnitKind::Queue) {
                self.serial = body[0] + 1;
            }
        }
    }

    // The first retired slot was closed: no record stands in it any more, and it is free.
    pub(crate) fn free_retired(&mut self, slot: Slot)
        requires of_unit { unit_of_slot self.old.layout slot ≡ self.old.unit }
        requires room { length self.old.free < self.old.layout.slots }
        ensures { self.new ≡ record self.old {
          rows = slice_set self.old.rows (slot - first_slot self.old.layout self.old.unit) None;
          retired = drop 1 self.old.retired;
          free = self.old.free ++ slot ∷ [];
        } }
    {
        let place = self.place(slot);
        self.rows[place] = None;
        self.retired.pop_front();
        self.free.push_back_reserved(slot);
    }

    // The first lost slot was closed, and is free.
    pub(crate) fn free_lost(&mut self, slot: Slot)
        requires { length self.old.free < self.old.layout.slots }
        ensures { self.new ≡ record self.old {
          lost = drop 1 self.old.lost;
          free = self.old.free ++ slot ∷ [];
          sweeping = false;
        } }
    {
        self.lost.pop_front();
        self.free.push_back_reserved(slot);
        self.sweeping = false;
    }

    // The unit has answered with its last entry, of this epoch: what was written becomes records,
    // and what these supersede is retired.
    pub(crate) fn settle(&mut self, places: u64, newest: Epoch)
        requires own { All (IsOwnSlot self.old.layout self.old.unit) self.old.written }
        requires room { length (self.old.retired ++ flat_map retired_with self.old.written)
            ≤ self.old.layout.slots }
        ensures { self.new
            ≡ record (settled self.old) { places = places; newest = newest } }
    {
        let first = self.unit * self.layout.slots();
        place_records(&mut self.rows, first, &self.written);
        retire_all(&mut self.retired, &self.written);
        self.written.clear();
        self.places = places;
        self.newest = newest;
    }
}

// The slots of a unit, in their order.
fn all_slots(alloc: Global, layout: Layout, unit: Unit) -> Result<VecDeque<Slot>, AllocError>
    requires { unit < units_of layout }
    ensures items { IfOk result (λ all. all.items ≡ slots_of layout unit) }
    ensures room { IfOk result (λ all. layout.slots ≤ deque_capacity all) }
{
    let slots = layout.slots();
    let first = unit * slots;
    let mut all = Vec::with_capacity(alloc, slots as usize)?;
    for place in 0..slots {
        all.push_reserved(first + place);
    }
    Ok(VecDeque::from_vec(all))
}

// Puts each written record into the row of its slot.
fn place_records(rows: &mut [Option<Held>], first: Slot, written: &[Written])
    requires { All (IsInRows first (length rows.old)) written.now }
    ensures { rows.new ≡ placed first rows.old written.now }
{
    for one in written {
        rows[(one.held.slot - first) as usize] = Some(one.held);
    }
}

// Retires what each written record supersedes, and an anti-payload right after its victim.
fn retire_all(retired: &mut VecDeque<Retired>, written: &[Written])
    requires { length (retired.old.items ++ flat_map retired_with written.now)
        ≤ deque_capacity retired.old }
    ensures items { retired.new.items ≡ retired.old.items ++ flat_map retired_with written.now }
    ensures room { deque_capacity retired.new ≡ deque_capacity retired.old }
{
    for one in written {
        retire_one(retired, one);
    }
}

// Retires the version before a record, and the record itself where it is an anti-payload.
fn retire_one(retired: &mut VecDeque<Retired>, one: &Written)
    requires { length (retired.old.items ++ retired_with one.now) ≤ deque_capacity retired.old }
    ensures items { retired.new.items ≡ retired.old.items ++ retired_with one.now }
    ensures room { deque_capacity retired.new ≡ deque_capacity retired.old }
{
    let epoch = one.held.label.epoch;
    let Some(victim) = one.before else {
        return;
    };
    let own = one.held.slot;
    retired.push_back_reserved(Retired {
        slot: victim,
        epoch,
    });
    if matches!(one.held.label.kind, Kind::Delete) {
        retired.push_back_reserved(Retired { slot: own, epoch });
    }
}
