// How the words of a store are divided among its units.
ghost use Rattle.std.specs.Prelude.{◌≡◌, ◌+◌, ◌*◌, ◌%◌, ◌^◌, ◌<◌, ◌≤◌, length, slice_get, Some};
ghost use Rattle.std.specs.Result.{OkIff};
ghost use Rattle.mont_base.specs.Layout.{IsLayout, IsKinds, units_of, total_of, words_of, map_units, unit_of_key, key_number, next_digit, unit_of_slot, kind_of, unit_named, shape, units_from};

use crate::constants::{FIELDS, LEAST_SLOTS, MOST_SLOTS};
use crate::kinds::{Kinds, UnitKind};
use crate::text::Text;
use std::marker::Model;

/// A number of the clock. An operation's payloads carry the epoch in which it was made (Montage,
/// ICPP 2021).
pub type Epoch = u64;

/// The number of a unit, which is a structure under one lock.
pub type Unit = u64;

/// The number of a slot, counted over the whole store.
pub type Slot = u64;

/// A number of slots that no unit has: fewer than 8 or more than 4096.
#[derive(Clone, Copy, Debug, PartialEq, Eq)]
pub struct BadLayout;

/// The kinds of a store's units, and the slots of each unit.
///
/// Contracts see it as the record of both, whose ranges are 1 to 16 units and 8 to 4096 slots.
#[derive(Clone, Copy, Debug, PartialEq, Eq)]
pub struct Layout {
    kinds: Kinds,
    slots: u64,
}

impl Model for Layout {
    ghost use Rattle.mont_base.specs.Layout.{Shape, IsLayout, shape};

    ghost Value = { Shape };

    ghost view = { λ l. shape l.kinds l.slots };

    ghost invariant = { λ l. IsLayout (shape l.kinds l.slots) };

    ghost inverse = { λ s. record { kinds = s.kinds; slots = s.slots } };
}

impl Layout {
    /// The layout of these units; `BadLayout` where the slots of a unit are out of their range.
    pub fn new(kinds: Kinds, slots: u64) -> Result<Layout, BadLayout>
        ensures { OkIff result (IsLayout (shape kinds slots)) (shape kinds slots) }
    {
        let _units = kinds.len();
        if (LEAST_SLOTS..=MOST_SLOTS).contains(&slots) {
            Ok(Layout { kinds, slots })
        } else {
            Err(BadLayout)
        }
    }

    /// The kinds of the units.
    pub fn kinds(&self) -> Kinds
        ensures value { result ≡ self.now.kinds }
        ensures layout { IsLayout self.now }
    {
        self.kinds
    }

    /// How many slots each unit has.
    pub fn slots(&self) -> u64
        ensures value { result ≡ self.now.slots }
        ensures layout { IsLayout self.now }
    {
        self.slots
    }

    /// How many units there are.
    pub fn units(&self) -> u64
        ensures value { result ≡ units_of self.now }
        ensures layout { IsLayout self.now }
    {
        self.kinds.len()
    }

    /// How many slots all units have.
    pub fn total(&self) -> u64
        ensures value { result ≡ total_of self.now }
        ensures layout { IsLayout self.now }
    {
        self.units() * self.slots
    }

    /// How many words the store has: its clock, and those of each slot.
    pub fn words(&self) -> u64
        ensures value { result ≡ words_of self.now }
        ensures layout { IsLayout self.now }
    {
        1 + FIELDS as u64 * self.total()
    }

    /// What kind of structure a unit is.
    pub fn kind(&self, unit: Unit) -> UnitKind
        requires { unit < units_of self.now }
        ensures { kind_of self.now unit ≡ Some result }
    {
        self.kinds.as_slice()[unit as usize]
    }

    /// The unit that a slot belongs to.
    pub fn unit_of_slot(&self, slot: Slot) -> Unit
        ensures { result ≡ unit_of_slot self.now slot }
    {
        slot / self.slots
    }

    /// How many map units there are.
    pub fn maps(&self) -> u64
        ensures value { result ≡ length (map_units self.now) }
        ensures layout { IsLayout self.now }
    {
        self.kinds.maps()
    }

    /// The map unit that keeps a key. The decimal digits of a number are kept by the map unit at
    /// the number modulo the count of map units, which are counted from 0.
    pub fn unit_of_key(&self, key: &Text) -> Unit
        requires { 0 < length (map_units self.now) }
        ensures { unit_of_key self.now key.now ≡ Some result }
    {
        let number = key_number(self.maps(), key);
        self.map_unit(number)
    }

    // The map unit that keeps a key, if there is a map unit.
    #[inline(always)]
    pub(crate) fn keeper(&self, key: &Text) -> Option<Unit>
        ensures { result ≡ unit_of_key self.now key.now }
    {
        let maps = self.maps();
        if maps == 0 {
            return None;
        }
        Some(self.map_unit(key_number(maps, key)))
    }

    /// The map unit of a number among the map units, counted from 0.
    pub fn map_unit(&self, number: u64) -> Unit
        requires { number < length (map_units self.now) }
        ensures { slice_get (map_units self.now) number ≡ Some result }
    {
        let mut left = number;
        for (unit, kind) in self.kinds.as_slice().iter().enumerate() {
            if *kind == UnitKind::Map {
                if left == 0 {
                    return unit as u64;
                }
                left -= 1;
            }
        }
        unreachable!()
    }

    /// A unit that is named as one of a kind, if it is one.
    #[inline(always)]
    pub fn named(&self, kind: UnitKind, unit: Unit) -> Option<Unit>
        ensures { result ≡ unit_named self.now kind unit }
    {
        if self.kinds.get(unit) == Some(kind) {
            Some(unit)
        } else {
            None
        }
    }
}

// A key's bytes as digits in base 10, modulo the number of map units.
fn key_number(maps: u64, key: &Text) -> u64
    requires some { 0 < maps }
    requires few { maps ≤ 16 }
    ensures number { result ≡ key_number maps key.now }
    ensures below { result < maps }
{
    if maps == 1 {
        return 0;
    }
    let held = key.held();
    let mut number = 0;
    for byte in &held[..key.len() as usize] {
        number = shortened(maps, number) * 10 + digit_of(*byte);
    }
    number % maps
}

// A number that stands for the same map unit, and has room for one more digit.
fn shortened(maps: u64, number: u64) -> u64
    requires some { 0 < maps }
    requires few { maps ≤ 16 }
    ensures same { result % maps ≡ number % maps }
    ensures room { result < 2 ^ 60 }
{
    if number < 1 << 60 {
        number
    } else {
        number % maps
    }
}

// A byte as a digit, where `0` to `9` count as 0 to 9.
fn digit_of(byte: u8) -> u64
    ensures { result ≡ (byte + 208) % 256 }
{
    u64::from(byte.wrapping_sub(b'0'))
}
