// The seats: tokens of the table, with the numbers that their holders need.
ghost use Rattle.std.specs.Prelude.{◌≡◌, ◌<◌, false, length, slice_get, Some};
ghost use Rattle.core_steps.specs.Advancing.{is_clocked};
ghost use Rattle.heap_rule.specs.Views.{odd_announcement};

use atomic_table::Seat;
use core_steps::AdvPart;
use heap_rule::{Cell, View};
use mont_base::{Epoch, Sequence, Unit};
use std::marker::Model;

/// The seat of a unit. There is one for each.
#[derive(Drop)]
pub struct UnitSeat {
    pub(crate) seat: Seat<Cell, View>,
    pub(crate) unit: Unit,
    // The epoch that is announced, and 0 where none is.
    pub(crate) epoch: Epoch,
    // How many entries the unit's history has, and the epoch of the last.
    pub(crate) entries: u64,
    pub(crate) newest: Epoch,
    pub(crate) durable: Epoch,
}

impl Model for UnitSeat {
    ghost use Rattle.heap_rule.specs.Views.{the_unit};
    ghost use Rattle.heap.specs.HeapShown.{UnitShown};

    ghost Value = { UnitShown };

    ghost use Rattle.heap.specs.SeatFields.{IsUnitSeat};

    ghost view = { λ s. record { table = s.seat.table_id; known = the_unit s.seat.me.0 } };

    ghost invariant = { IsUnitSeat };
}

/// The seat of the advancer.
#[derive(Drop)]
pub struct AdvSeat {
    pub(crate) seat: Seat<Cell, View>,
    pub(crate) part: AdvPart,
    pub(crate) clock: Epoch,
    pub(crate) durable: Epoch,
    // How many units' lists were given back empty.
    pub(crate) emptied: Unit,
}

impl Model for AdvSeat {
    ghost use Rattle.heap_rule.specs.Views.{the_advancer};
    ghost use Rattle.heap.specs.HeapShown.{AdvShown};

    ghost Value = { AdvShown };

    ghost use Rattle.heap.specs.SeatFields.{IsAdvSeat};

    ghost view = { λ s. record { table = s.seat.table_id; known = the_advancer s.seat.me.0 } };

    ghost invariant = { IsAdvSeat };
}

/// The seat of a caller.
#[derive(Drop)]
pub struct Ticket {
    pub(crate) seat: Seat<Cell, View>,
    pub(crate) number: u64,
    pub(crate) calls: u64,
    pub(crate) fronts: Sequence<u64>,
    pub(crate) synced: Sequence<u64>,
    pub(crate) newest: Epoch,
    pub(crate) durable: Epoch,
}

impl Model for Ticket {
    ghost use Rattle.heap_rule.specs.Views.{the_caller};
    ghost use Rattle.heap.specs.HeapShown.{CallerShown};

    ghost Value = { CallerShown };

    ghost use Rattle.heap.specs.SeatFields.{IsTicket};

    ghost view = { λ s. record { table = s.seat.table_id; known = the_caller s.seat.me.0 } };

    ghost invariant = { IsTicket };
}

impl UnitSeat {
    /// The unit's number.
    pub fn unit(&self) -> Unit
        ensures { result ≡ self.now.known.unit }
    {
        self.unit
    }

    // What it announces once a caller was cut in it.
    pub(crate) fn odd(&self) -> u64
        ensures { result ≡ odd_announcement self.now.known.part.stage }
    {
        if self.epoch == 0 {
            0
        } else {
            2 * self.epoch + 1
        }
    }
}

impl AdvSeat {
    /// How far the advance is that it makes.
    pub fn part(&self) -> AdvPart
        ensures { result ≡ self.now.known.part }
    {
        self.part
    }

    /// The durable clock. It is the clock, unless the clock has moved and is not durable yet.
    pub fn durable(&self) -> Epoch
        ensures clock { result ≡ self.now.known.durable }
        ensures kept { is_clocked self.now.known.part ≡ false
            → self.now.known.durable ≡ self.now.known.clock }
    {
        self.durable
    }
}

impl Ticket {
    /// The caller's number.
    pub fn number(&self) -> u64
        ensures { result ≡ self.now.known.caller }
    {
        self.number
    }

    /// How many of its calls were answered.
    pub fn calls(&self) -> u64
        ensures calls { result ≡ self.now.known.part.calls }
        ensures receipts { result ≡ length self.now.known.part.receipts }
    {
        self.calls
    }

    /// The newest epoch that it has seen; 0 at first.
    pub fn newest(&self) -> Epoch
        ensures { result ≡ self.now.known.part.newest }
    {
        self.newest
    }

    /// How many entries of the unit it has seen.
    pub fn front(&self, unit: Unit) -> u64
        requires { unit < length self.now.known.part.fronts }
        ensures { slice_get self.now.known.part.fronts unit ≡ Some result }
    {
        self.fronts.as_slice()[unit as usize]
    }

    /// What its front there was when it last learnt of a durable clock two epochs or more past all
    /// that it had seen; 0 before.
    pub fn synced(&self, unit: Unit) -> u64
        requires { unit < length self.now.known.part.synced }
        ensures { slice_get self.now.known.part.synced unit ≡ Some result }
    {
        self.synced.as_slice()[unit as usize]
    }
}
