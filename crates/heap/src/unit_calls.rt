// The steps by which a unit looks at the clock and announces an epoch.
ghost use Rattle.std.specs.Prelude.{◌≡◌, ◌<◌, ℕ, max, IsTrue, IfOk, OnOk, OnErr};
ghost use Rattle.mont_base.specs.Layout.{units_of};
ghost use Rattle.core_steps.specs.Stages.{is_idle, is_within};
ghost use Rattle.core_steps.specs.Announcing.{can_look, can_tell, can_confirm, can_withdraw};
ghost use Rattle.core_steps.specs.Closing.{can_load_durable};
ghost use Rattle.heap_rule.specs.Plays.{IsClock, IsDurable};
ghost use Rattle.heap_rule.specs.SoundUnits.{IsSoundUnit};
ghost use Rattle.heap_rule.specs.TableWords.{durable_place};
ghost use Rattle.heap_rule.specs.Views.{are_clean, home_turn, the_unit, unit_view, unit_looked, unit_told, unit_confirmed, unit_withdrew, unit_loaded_durable};
ghost use Rattle.heap.specs.GateAsked.{IsAskedOnce};

use crate::heap::Heap;
use crate::seats::UnitSeat;
use atomic_table::Seat;
use heap_rule::{Cell, Confirms, LoadsDurable, Looks, Opened, Tells, View, Withdraws};
use mont_base::{Cut, Epoch, Gate};
use std::marker::Brand;

impl Heap {
    /// Loads the clock.
    pub fn load_clock<G: Gate>(&self, seat: &mut UnitSeat, gate: &mut G) -> Result<Epoch, Cut>
        requires heap { seat.old.table ≡ self.now.table }
        requires may { IsTrue (can_look seat.old.known.part) }
        ensures gate { IsAskedOnce G.cuts G.endless G.asked gate.old gate.new result }
        ensures ok { IfOk result (λ clock. seat.new
            ≡ record { table = seat.old.table; known = unit_looked seat.old.known clock }) }
        ensures clock { IfOk result (λ clock. IsClock seat.old.known.learnt
            seat.old.known.part clock) }
        ensures cut { OnErr result (seat.new ≡ seat.old) }
    {
        gate.step()?;
        Ok(self.table.shared.load::<Looks>(&mut seat.seat, 0))
    }

    /// Announces the epoch.
    pub fn tell<G: Gate>(&self, seat: &mut UnitSeat, epoch: Epoch, gate: &mut G) -> Result<(), Cut>
        requires heap { seat.old.table ≡ self.now.table }
        requires may { IsTrue (can_tell seat.old.known.part epoch) }
        requires clean { IsTrue (is_idle seat.old.known.part.stage)
            → IsTrue (are_clean (units_of self.now.opening.layout) seat.old.known.clean) }
        ensures gate { IsAskedOnce G.cuts G.endless G.asked gate.old gate.new result }
        ensures ok { OnOk result (seat.new
            ≡ record { table = seat.old.table; known = unit_told seat.old.known epoch }) }
        ensures cut { OnErr result (seat.new ≡ seat.old) }
    {
        gate.step()?;
        let place = self.announcement(seat);
        self.table
            .shared
            .store::<Tells>(&mut seat.seat, place, 2 * epoch);
        seat.epoch = epoch;
        Ok(())
    }

    /// Loads the clock again. The unit is registered where it shows the announced epoch.
    pub fn confirm<G: Gate>(&self, seat: &mut UnitSeat, gate: &mut G) -> Result<Epoch, Cut>
        requires heap { seat.old.table ≡ self.now.table }
        requires may { IsTrue (can_confirm seat.old.known.part) }
        ensures gate { IsAskedOnce G.cuts G.endless G.asked gate.old gate.new result }
        ensures ok { IfOk result (λ clock. seat.new
            ≡ record { table = seat.old.table; known = unit_confirmed seat.old.known clock }) }
        ensures clock { IfOk result (λ clock. IsClock seat.old.known.learnt
            seat.old.known.part clock) }
        ensures cut { OnErr result (seat.new ≡ seat.old) }
    {
        gate.step()?;
        Ok(self.table.shared.load::<Confirms>(&mut seat.seat, 0))
    }

    /// Takes the announcement back, with nothing stored.
    pub fn withdraw<G: Gate>(&self, seat: &mut UnitSeat, gate: &mut G) -> Result<(), Cut>
        requires heap { seat.old.table ≡ self.now.table }
        requires may { IsTrue (can_withdraw seat.old.known.part) }
        requires home { IsTrue (is_within seat.old.known.part.stage)
            → seat.old.known.turn ≡ home_turn }
        ensures gate { IsAskedOnce G.cuts G.endless G.asked gate.old gate.new result }
        ensures ok { OnOk result (seat.new
            ≡ record { table = seat.old.table; known = unit_withdrew seat.old.known }) }
        ensures cut { OnErr result (seat.new ≡ seat.old) }
    {
        gate.step()?;
        let place = self.announcement(seat);
        self.table
            .shared
            .store::<Withdraws>(&mut seat.seat, place, 0);
        seat.epoch = 0;
        Ok(())
    }

    /// Loads the durable clock. What the invariant tells of the unit stands there with it.
    pub fn load_durable<G: Gate>(&self, seat: &mut UnitSeat, gate: &mut G) -> Result<Epoch, Cut>
        requires heap { seat.old.table ≡ self.now.table }
        requires may { IsTrue (can_load_durable seat.old.known.part) }
        ensures gate { IsAskedOnce G.cuts G.endless G.asked gate.old gate.new result }
        ensures ok { IfOk result (λ clock. seat.new
            ≡ record { table = seat.old.table; known = unit_loaded_durable seat.old.known clock }) }
        ensures clock { IfOk result (λ clock. IsDurable
            (max seat.old.known.part.durable seat.old.known.learnt.durable) clock) }
        ensures sound { IfOk result (λ clock. (now : ℕ)
            × IsSoundUnit self.now.opening now clock seat.new.known) }
        ensures cut { OnErr result (seat.new ≡ seat.old) }
    {
        gate.step()?;
        let place = self.durable_clock();
        let clock = self.load_known::<Brand>(&mut seat.seat, place);
        seat.durable = clock;
        Ok(clock)
    }

    // The load of the durable clock, by a unit's seat.
    fn load_known<N: Opened>(&self, seat: &mut Seat<Cell, View>, place: usize) -> Epoch
        requires heap { seat.old.table_id ≡ self.now.table }
        requires view { seat.old.me.0 ≡ unit_view (the_unit seat.old.me.0) }
        requires place { place ≡ durable_place self.now.opening.layout 0 }
        requires inside { place < self.now.table.words }
        requires may { IsTrue (can_load_durable (the_unit seat.old.me.0).part) }
        requires opening { N.opening ≡ self.now.opening }
        ensures seat { seat.new.table_id ≡ seat.old.table_id }
        ensures view { seat.new.me
            ≡ (
              unit_view (unit_loaded_durable (the_unit seat.old.me.0) result),
              seat.old.me.1,
            ) }
        ensures clock { IsDurable
            (max (the_unit seat.old.me.0).part.durable (the_unit seat.old.me.0).learnt.durable)
            result }
        ensures sound { (now : ℕ) × IsSoundUnit N.opening now result
            (unit_loaded_durable (the_unit seat.old.me.0) result) }
    {
        self.table.shared.load::<LoadsDurable<N>>(seat, place)
    }
}
