// Registration, at whatever epoch the clock shows or at one that is asked for.
ghost use Rattle.std.specs.Prelude.{◌≡◌, ◌≤◌, IsTrue, IfOk, OnErr, OnOk, IfErr, is_err};
ghost use Rattle.mont_base.specs.declared.constants.TheConstants.{FIRST_CLOCK, LAST};
ghost use Rattle.mont_base.specs.Layout.{units_of};
ghost use Rattle.core_steps.specs.Announcing.{can_look, can_tell};
ghost use Rattle.heap_rule.specs.Plays.{IsClock};
ghost use Rattle.heap_rule.specs.Views.{are_clean};
ghost use Rattle.heap.specs.GateAsked.{IsAskedOften};
ghost use Rattle.announce.specs.Registering.{HasTried, IsRegistered, IsRegisteredAt, IsOut, LeavesOut, was_cut};

use crate::register_refusal::RegisterRefusal;
use heap::{Heap, UnitSeat};
use mont_base::{Cut, Epoch, Gate};
use std::sync::Wait;

/// Registers the unit at the epoch that the clock shows, and answers it.
///
/// It may wait for the clock to stand still. Where the gate cuts, an epoch may be left announced.
pub fn register<R: Wait, G: Gate>(
    rt: &R,
    heap: &Heap,
    seat: &mut UnitSeat,
    gate: &mut G,
) -> Result<Epoch, Cut>
    requires heap { seat.old.table ≡ heap.now.table }
    requires may { IsTrue (can_look seat.old.known.part) }
    requires clean { IsTrue (are_clean (units_of heap.now.opening.layout) seat.old.known.clean) }
    ensures gate { IsAskedOften G.cuts G.endless gate.old gate.new (is_err result) }
    ensures ok { IfOk result (λ epoch. IsRegistered seat.old seat.new epoch) }
    ensures clock { IfOk result (λ epoch. IsClock seat.old.known.learnt seat.old.known.part epoch) }
    ensures cut { OnErr result (IsOut seat.old seat.new) }
{
    let mut epoch = heap.load_clock(seat, gate)?;
    for _ in rt.forever() {
        let clock = announce(heap, seat, epoch, gate)?;
        if clock == epoch {
            return Ok(epoch);
        }
        epoch = clock;
    }
    unreachable!()
}

/// Registers the unit at this epoch, if the clock shows it after the announcement. It is looked at
/// once.
pub fn register_at<G: Gate>(
    heap: &Heap,
    seat: &mut UnitSeat,
    epoch: Epoch,
    gate: &mut G,
) -> Result<(), RegisterRefusal>
    requires heap { seat.old.table ≡ heap.now.table }
    requires may { IsTrue (can_look seat.old.known.part) }
    requires first { FIRST_CLOCK ≤ epoch }
    requires last { epoch ≤ LAST }
    requires clean { IsTrue (are_clean (units_of heap.now.opening.layout) seat.old.known.clean) }
    ensures gate { IsAskedOften G.cuts G.endless gate.old gate.new (was_cut result) }
    ensures ok { OnOk result (IsRegisteredAt seat.old seat.new epoch) }
    ensures refused { IfErr result (λ refusal. LeavesOut seat.old seat.new epoch refusal) }
{
    let clock = announce(heap, seat, epoch, gate)?;
    if clock == epoch {
        return Ok(());
    }
    heap.withdraw(seat, gate)?;
    Err(RegisterRefusal::Moved { clock })
}

// Announces the epoch, and answers what the clock shows after that. The unit is registered where
// it is the epoch.
fn announce<G: Gate>(
    heap: &Heap,
    seat: &mut UnitSeat,
    epoch: Epoch,
    gate: &mut G,
) -> Result<Epoch, Cut>
    requires heap { seat.old.table ≡ heap.now.table }
    requires may { IsTrue (can_tell seat.old.known.part epoch) }
    requires clean { IsTrue (are_clean (units_of heap.now.opening.layout) seat.old.known.clean) }
    ensures gate { IsAskedOften G.cuts G.endless gate.old gate.new (is_err result) }
    ensures ok { IfOk result (λ clock. HasTried seat.old seat.new epoch clock) }
    ensures clock { IfOk result (λ clock. IsClock seat.old.known.learnt seat.old.known.part clock) }
    ensures cut { OnErr result (IsOut seat.old seat.new) }
{
    heap.tell(seat, epoch, gate)?;
    heap.confirm(seat, gate)
}
