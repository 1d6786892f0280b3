// The advancer: its seat, and how far its advance is.
ghost use Rattle.std.specs.Prelude.{◌≡◌, ◌≢◌, ◌<◌, ◌≤◌, ◌↔◌, true, false, length, IsTrue, IfSome, IfNone, IfOk, IfErr, OnOk, OnErr, Err, is_err};
ghost use Rattle.mont_base.specs.declared.constants.TheConstants.{LAST};
ghost use Rattle.mont_base.specs.Image.{clock_of};
ghost use Rattle.mont_base.specs.Layout.{units_of};
ghost use Rattle.core_steps.specs.declared.parts.AdvPart.TheVariants.{Rest};
ghost use Rattle.core_steps.specs.Advancing.{can_check, unit_at_hand, lets_pass, past_unit, is_clocked};
ghost use Rattle.heap_rule.specs.Views.{are_clean, advancer_shown, caller_heard, note_of_advancer};
ghost use Rattle.heap.specs.GateAsked.{IsAskedOften};
ghost use Rattle.heap_pass.specs.OfLayout.{IsOfLayout};
ghost use Rattle.write_back.specs.AskedSteps.{AsksEachStep};
ghost use Rattle.advance.specs.declared.advance_refusal.AdvanceRefusal.TheVariants.{ClockEnd};
ghost use Rattle.advance.specs.Stage.{stage_of, IsAtRest, IsWaitingAt, has_passed, IsReady};
ghost use Rattle.advance.specs.Advance.{IsSameSeat, HasChecked, IsAdvanced, IsUnderWay, HasReason, IsAtEnd, was_cut};

use crate::advance_refusal::AdvanceRefusal;
use crate::stage::AdvStage;
use heap::{AdvSeat, Heap, Ticket};
use heap_pass::OfHeap;
use mont_base::{Cut, Epoch, Gate, LAST, Layout, Unit};
use std::marker::Model;
use write_back::Flush;

/// The advancer of a heap.
///
/// Contracts see what its seat shows.
#[derive(Drop)]
pub struct Advancer {
    seat: AdvSeat,
    units: u64,
    clock: Epoch,
    stage: AdvStage,
    flush: Flush,
}

impl Model for Advancer {
    ghost use Rattle.heap.specs.HeapShown.{AdvShown};
    ghost use Rattle.advance.specs.Stage.{FitsSeat};

    ghost Value = { AdvShown };

    ghost view = { λ a. a.seat };

    ghost invariant = { λ a. FitsSeat a.units a.clock a.stage a.flush a.seat.known };
}

// It fits a heap where its seat does.
impl OfHeap for Advancer {
    ghost use Rattle.heap_pass.specs.OfHeap.{IsAdvancerOf, IsAdvancerOf-prop};

    ghost fits = { IsAdvancerOf };

    ghost fits_once = { IsAdvancerOf-prop };
}

impl Advancer {
    /// An advancer with this seat of a heap, whose current clock is `clock`.
    pub fn new(layout: Layout, seat: AdvSeat, clock: Epoch) -> Advancer
        requires layout { IsOfLayout layout seat.known }
        requires rest { IsAtRest seat.known }
        requires clock { clock ≡ seat.known.clock }
        requires last { clock ≤ LAST }
        ensures { result ≡ seat }
    {
        Advancer {
            seat,
            units: layout.units(),
            clock,
            stage: AdvStage::Rest,
            flush: Flush::start(),
        }
    }

    /// Its seat.
    pub fn into_seat(self) -> AdvSeat
        ensures { result ≡ self }
    {
        let Advancer {
            seat,
            units: _,
            clock: _,
            stage: _,
            flush: _,
        } = self;
        seat
    }

    /// The current clock.
    pub fn clock(&self) -> Epoch
        ensures { result ≡ self.now.known.clock }
    {
        self.clock
    }

    /// How far its advance is.
    pub fn stage(&self) -> AdvStage
        ensures { result ≡ stage_of self.now.known }
    {
        self.stage
    }

    /// Its seat takes a note of the ticket.
    pub fn show(&mut self, heap: &Heap, ticket: &mut Ticket)
        requires heap { self.old.table ≡ heap.now.table }
        requires ticket { ticket.old.table ≡ heap.now.table }
        ensures advancer { self.new ≡ record {
          table = self.old.table;
          known = advancer_shown self.old.known ticket.old.known;
        } }
        ensures caller { ticket.new ≡ ticket.old }
    {
        heap.show_advancer(ticket, &mut self.seat);
    }

    /// The ticket takes a note of its seat.
    pub fn hear(&mut self, heap: &Heap, ticket: &mut Ticket)
        requires heap { self.old.table ≡ heap.now.table }
        requires ticket { ticket.old.table ≡ heap.now.table }
        ensures advancer { self.new ≡ self.old }
        ensures caller { ticket.new ≡ record {
          table = ticket.old.table;
          known = caller_heard ticket.old.known
              (note_of_advancer (length ticket.old.known.part.fronts) self.old.known);
        } }
    {
        heap.hear_advancer(ticket, &mut self.seat);
    }

    /// Goes on with the advance that is under way, or begins one: passes the units in order, writes
    /// back what they have listed, moves the clock, makes it durable and answers it. After a
    /// refusal the next call goes on from where it stands.
    pub fn advance<G: Gate>(&mut self, heap: &Heap, gate: &mut G) -> Result<Epoch, AdvanceRefusal>
        requires heap { self.old.table ≡ heap.now.table }
        requires layout { IsOfLayout heap.now.opening.layout self.old.known }
        requires clean { self.old.known.part ≡ Rest
            → IsTrue (are_clean (units_of heap.now.opening.layout) self.old.known.clean) }
        ensures gate { IsAskedOften G.cuts G.endless gate.old gate.new (was_cut result) }
        ensures asked { AsksEachStep G.asked self.old.known.steps self.new.known.steps
            gate.old gate.new (was_cut result) }
        ensures same { IsSameSeat self.old self.new }
        ensures ok { IfOk result (λ clock. IsAdvanced self.old.known clock self.new.known) }
        ensures begun { IfOk result (λ clock. clock_of heap.now.opening.words < clock) }
        ensures refused { OnErr result (IsUnderWay self.old.known self.new.known) }
        ensures reason { IfErr result (λ why. HasReason why self.old.known self.new.known) }
        ensures clock_end { IsAtEnd self.old.known → result ≡ Err ClockEnd }
    {
        if self.is_at_end() {
            return Err(AdvanceRefusal::ClockEnd);
        }
        self.pass_units(heap, gate)?;
        Ok(self.settle(heap, gate)?)
    }

    // Whether no clock is ahead.
    fn is_at_end(&self) -> bool
        ensures end { IsTrue result ↔ IsAtEnd self.now.known }
        ensures durable { IsTrue result → self.now.known.durable ≡ LAST }
        ensures ahead { result ≡ false
            → self.now.known.part ≡ Rest → self.now.known.clock < LAST }
    {
        match self.stage {
            AdvStage::Rest => self.seat.durable() == LAST,
            _ => false,
        }
    }

    // Passes the units in order from the one at hand on, unless all are passed.
    fn pass_units<G: Gate>(&mut self, heap: &Heap, gate: &mut G) -> Result<(), AdvanceRefusal>
        requires heap { self.old.table ≡ heap.now.table }
        requires layout { IsOfLayout heap.now.opening.layout self.old.known }
        requires clean { self.old.known.part ≡ Rest
            → IsTrue (are_clean (units_of heap.now.opening.layout) self.old.known.clean) }
        requires ahead { self.old.known.part ≡ Rest → self.old.known.clock < LAST }
        ensures gate { IsAskedOften G.cuts G.endless gate.old gate.new (was_cut result) }
        ensures asked { AsksEachStep G.asked self.old.known.steps self.new.known.steps
            gate.old gate.new (was_cut result) }
        ensures same { IsSameSeat self.old self.new }
        ensures way { IsUnderWay self.old.known self.new.known }
        ensures reason { IfErr result (λ why. HasReason why self.old.known self.new.known) }
        ensures going { result ≢ Err ClockEnd }
        ensures ok { OnOk result (has_passed self.new.known.part ≡ true) }
    {
        let Some(first) = self.unit_to_pass() else {
            return Ok(());
        };
        for unit in first..self.units {
            self.pass_unit(heap, unit, gate)?;
        }
        Ok(())
    }

    // The unit at hand, unless all are passed.
    fn unit_to_pass(&self) -> Option<Unit>
        requires ahead { self.now.known.part ≡ Rest → self.now.known.clock < LAST }
        ensures waits { IfSome result (IsWaitingAt self.now.known) }
        ensures passed { IfNone result (has_passed self.now.known.part ≡ true) }
    {
        match self.stage {
            AdvStage::Rest => Some(0),
            AdvStage::Checking { unit } => Some(unit),
            _ => None,
        }
    }

    // Loads the unit's announcement, and goes on to the next unit where it lets the advancer pass.
    fn pass_unit<G: Gate>(
        &mut self,
        heap: &Heap,
        unit: Unit,
        gate: &mut G,
    ) -> Result<(), AdvanceRefusal>
        requires heap { self.old.table ≡ heap.now.table }
        requires layout { IsOfLayout heap.now.opening.layout self.old.known }
        requires clean { self.old.known.part ≡ Rest
            → IsTrue (are_clean (units_of heap.now.opening.layout) self.old.known.clean) }
        requires may { IsTrue (can_check self.old.known.clock self.old.known.part) }
        requires unit { unit ≡ unit_at_hand self.old.known.part }
        ensures gate { IsAskedOften G.cuts G.endless gate.old gate.new (was_cut result) }
        ensures asked { AsksEachStep G.asked self.old.known.steps self.new.known.steps
            gate.old gate.new (was_cut result) }
        ensures same { IsSameSeat self.old self.new }
        ensures checked { HasChecked self.old.known self.new.known }
        ensures reason { IfErr result (λ why. HasReason why self.old.known self.new.known) }
        ensures going { result ≢ Err ClockEnd }
        ensures ok { OnOk result (self.new.known.part ≡ past_unit self.old.known.units unit) }
    {
        let word = heap.load_told(&mut self.seat, gate)?;
        if !may_pass(self.clock, word) {
            self.stage = AdvStage::Checking { unit };
            return Err(AdvanceRefusal::NotYet {
                unit,
                epoch: word / 2,
                cut: word % 2 == 1,
            });
        }
        self.stage = AdvStage::past(self.units, unit);
        Ok(())
    }

    // After all units: writes back what they have listed, moves the clock, makes it durable and
    // answers it.
    fn settle<G: Gate>(&mut self, heap: &Heap, gate: &mut G) -> Result<Epoch, Cut>
        requires heap { self.old.table ≡ heap.now.table }
        requires layout { IsOfLayout heap.now.opening.layout self.old.known }
        requires passed { has_passed self.old.known.part ≡ true }
        ensures gate { IsAskedOften G.cuts G.endless gate.old gate.new (is_err result) }
        ensures asked { AsksEachStep G.asked self.old.known.steps self.new.known.steps
            gate.old gate.new (is_err result) }
        ensures same { IsSameSeat self.old self.new }
        ensures ok { IfOk result (λ clock. IsAdvanced self.old.known clock self.new.known) }
        ensures begun { IfOk result (λ clock. clock_of heap.now.opening.words < clock) }
        ensures refused { OnErr result (IsUnderWay self.old.known self.new.known) }
    {
        self.write_back(heap, gate)?;
        self.move_clock(heap, gate)?;
        self.persist_clock(heap, gate)
    }

    // Writes back what the units have listed, unless it is written back.
    fn write_back<G: Gate>(&mut self, heap: &Heap, gate: &mut G) -> Result<(), Cut>
        requires heap { self.old.table ≡ heap.now.table }
        requires layout { IsOfLayout heap.now.opening.layout self.old.known }
        requires passed { has_passed self.old.known.part ≡ true }
        ensures gate { IsAskedOften G.cuts G.endless gate.old gate.new (is_err result) }
        ensures asked { AsksEachStep G.asked self.old.known.steps self.new.known.steps
            gate.old gate.new (is_err result) }
        ensures same { IsSameSeat self.old self.new }
        ensures way { IsUnderWay self.old.known self.new.known }
        ensures ok { OnOk result (IsReady self.new.known) }
    {
        match self.stage {
            AdvStage::Flushing => {}
            _ => return Ok(()),
        }
        self.flush.flush_epoch(heap, &mut self.seat, gate)?;
        self.stage = AdvStage::Ready;
        Ok(())
    }

    // Moves the clock, unless it has moved.
    fn move_clock<G: Gate>(&mut self, heap: &Heap, gate: &mut G) -> Result<(), Cut>
        requires heap { self.old.table ≡ heap.now.table }
        requires ready { IsReady self.old.known }
        ensures gate { IsAskedOften G.cuts G.endless gate.old gate.new (is_err result) }
        ensures asked { AsksEachStep G.asked self.old.known.steps self.new.known.steps
            gate.old gate.new (is_err result) }
        ensures same { IsSameSeat self.old self.new }
        ensures way { IsUnderWay self.old.known self.new.known }
        ensures ok { OnOk result (is_clocked self.new.known.part ≡ true) }
    {
        match self.stage {
            AdvStage::Clocked => return Ok(()),
            _ => {}
        }
        heap.set_clock(&mut self.seat, gate)?;
        self.clock += 1;
        self.flush = Flush::start();
        self.stage = AdvStage::Clocked;
        Ok(())
    }

    // Makes the clock durable.
    fn persist_clock<G: Gate>(&mut self, heap: &Heap, gate: &mut G) -> Result<Epoch, Cut>
        requires heap { self.old.table ≡ heap.now.table }
        requires moved { is_clocked self.old.known.part ≡ true }
        ensures gate { IsAskedOften G.cuts G.endless gate.old gate.new (is_err result) }
        ensures asked { AsksEachStep G.asked self.old.known.steps self.new.known.steps
            gate.old gate.new (is_err result) }
        ensures same { IsSameSeat self.old self.new }
        ensures ok { IfOk result (λ clock. IsAdvanced self.old.known clock self.new.known) }
        ensures begun { IfOk result (λ clock. clock_of heap.now.opening.words < clock) }
        ensures refused { OnErr result (self.new ≡ self.old) }
    {
        heap.persist_clock(&mut self.seat, gate)?;
        self.stage = AdvStage::Rest;
        Ok(self.clock)
    }
}

// Whether an announcement lets the advancer pass.
fn may_pass(clock: Epoch, word: u64) -> bool
    ensures { result ≡ lets_pass clock word }
{
    word == 0 || clock <= word / 2
}
