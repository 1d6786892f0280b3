// The steps by which a unit answers a caller, and by which a caller is cut in a unit.
ghost use Rattle.std.specs.Prelude.{◌≡◌, ◌<◌, ℕ, max, false, IsTrue, IfOk, OnOk, OnErr};
ghost use Rattle.mont_base.specs.Layout.{units_of};
ghost use Rattle.core_steps.specs.Stages.{epoch_of};
ghost use Rattle.core_steps.specs.Announcing.{can_freeze};
ghost use Rattle.core_steps.specs.CallAnswers.{CanLeave, CanRead};
ghost use Rattle.heap_rule.specs.Plays.{IsClock, IsNotBeyond, answer_of};
ghost use Rattle.heap_rule.specs.SoundUnits.{IsSoundUnit};
ghost use Rattle.heap_rule.specs.TableWords.{announcement_place};
ghost use Rattle.heap_rule.specs.Views.{are_clean, slots_written, pair_view, the_unit, the_caller, unit_left, unit_read, unit_frozen, caller_answered, caller_cut};
ghost use Rattle.heap.specs.GateAsked.{IsAskedOnce};
ghost use Rattle.heap.specs.Receipts.{receipt_of};

use crate::heap::Heap;
use crate::next_answer::NextAnswer;
use crate::seats::{Ticket, UnitSeat};
use atomic_table::Seat;
use heap_rule::{Answer, Callers, Cell, Freezes, Leaves, Reads, TakesCallers, View, Whole};
use mont_base::{Cut, Epoch, Gate, Op, Receipt, Reply};
use std::marker::Brand;

impl Heap {
    /// Leaves the epoch in which the unit has written, with an answer to the caller.
    pub fn leave<G: Gate>(
        &self,
        seat: &mut UnitSeat,
        ticket: &mut Ticket,
        op: &Op,
        reply: &Reply,
        gate: &mut G,
    ) -> Result<Receipt, Cut>
        requires heap { seat.old.table ≡ self.now.table }
        requires ticket { ticket.old.table ≡ self.now.table }
        requires may { CanLeave self.now.opening.layout seat.old.known.unit seat.old.known.part
            ticket.old.known.part op.now reply.now (epoch_of seat.old.known.part.stage) }
        requires home { seat.old.known.turn.out ≡ false }
        requires given { seat.old.known.turn.pushed ≡ slots_written seat.old.known.part }
        ensures gate { IsAskedOnce G.cuts G.endless G.asked gate.old gate.new result }
        ensures unit { IfOk result (λ r. seat.new
            ≡ record { table = seat.old.table; known = unit_left seat.old.known r.entry }) }
        ensures caller { IfOk result (λ r. ticket.new ≡ record {
          table = ticket.old.table;
          known = caller_answered ticket.old.known seat.old.known r.entry;
        }) }
        ensures receipt { IfOk result (λ r. r ≡ receipt_of seat.old.known
            (answer_of ticket.old.known op.now reply.now
            (epoch_of seat.old.known.part.stage))) }
        ensures front { OnOk result (IsNotBeyond ticket.old.known seat.old.known) }
        ensures sound_before { OnOk result ((now durable : ℕ)
            × IsSoundUnit self.now.opening now durable seat.old.known) }
        ensures sound { IfOk result (λ _. (now durable : ℕ)
            × IsSoundUnit self.now.opening now durable seat.new.known) }
        ensures cut { OnErr result ((seat.new ≡ seat.old) × (ticket.new ≡ ticket.old)) }
    {
        let answer = NextAnswer::of(seat, ticket);
        let epoch = self.leave_epoch(seat, ticket, op, reply, gate)?;
        Ok(answer.receipt(op, reply, epoch))
    }

    /// The same as `leave`, and returns only the epoch. The receipt is given by the `NextAnswer`
    /// that the unit had before.
    pub fn leave_epoch<G: Gate>(
        &self,
        seat: &mut UnitSeat,
        ticket: &mut Ticket,
        op: &Op,
        reply: &Reply,
        gate: &mut G,
    ) -> Result<Epoch, Cut>
        requires heap { seat.old.table ≡ self.now.table }
        requires ticket { ticket.old.table ≡ self.now.table }
        requires may { CanLeave self.now.opening.layout seat.old.known.unit seat.old.known.part
            ticket.old.known.part op.now reply.now (epoch_of seat.old.known.part.stage) }
        requires home { seat.old.known.turn.out ≡ false }
        requires given { seat.old.known.turn.pushed ≡ slots_written seat.old.known.part }
        ensures gate { IsAskedOnce G.cuts G.endless G.asked gate.old gate.new result }
        ensures epoch { IfOk result (λ epoch. epoch ≡ epoch_of seat.old.known.part.stage) }
        ensures unit { IfOk result (λ epoch. seat.new ≡ record {
          table = seat.old.table;
          known = unit_left seat.old.known (answer_of ticket.old.known op.now reply.now epoch);
        }) }
        ensures caller { IfOk result (λ epoch. ticket.new ≡ record {
          table = ticket.old.table;
          known = caller_answered ticket.old.known seat.old.known
              (answer_of ticket.old.known op.now reply.now epoch);
        }) }
        ensures front { OnOk result (IsNotBeyond ticket.old.known seat.old.known) }
        ensures sound_before { OnOk result ((now durable : ℕ)
            × IsSoundUnit self.now.opening now durable seat.old.known) }
        ensures sound { OnOk result ((now durable : ℕ)
            × IsSoundUnit self.now.opening now durable seat.new.known) }
        ensures cut { OnErr result ((seat.new ≡ seat.old) × (ticket.new ≡ ticket.old)) }
    {
        gate.step()?;
        let place = self.announcement(seat);
        let shared = &self.table.shared;
        let whole = shared.split_seat::<Whole>(&mut ticket.seat);
        shared.join_seat::<TakesCallers>(&mut seat.seat, whole);
        self.store_left::<Brand>(&mut seat.seat, place, op, reply);
        ticket.seat = shared.split_seat::<Callers>(&mut seat.seat);
        let (unit, place, epoch) = (seat.unit, seat.entries, seat.epoch);
        seat.entries += 1;
        seat.newest = epoch;
        seat.epoch = 0;
        ticket.calls += 1;
        ticket.newest = epoch;
        ticket.fronts.set(unit, place + 1);
        Ok(epoch)
    }

    // The store of an announcement taken back, by a seat that has both parts.
    fn store_left<N: Answer>(
        &self,
        seat: &mut Seat<Cell, View>,
        place: usize,
        op: &Op,
        reply: &Reply,
    )
        requires heap { seat.old.table_id ≡ self.now.table }
        requires view { seat.old.me.0
            ≡ pair_view (the_unit seat.old.me.0) (the_caller seat.old.me.0) }
        requires place { place ≡ announcement_place self.now.opening.layout
            (the_unit seat.old.me.0).unit }
        requires inside { place < self.now.table.words }
        requires may { CanLeave self.now.opening.layout (the_unit seat.old.me.0).unit
            (the_unit seat.old.me.0).part (the_caller seat.old.me.0).part op.now reply.now
            (epoch_of (the_unit seat.old.me.0).part.stage) }
        requires given { (the_unit seat.old.me.0).turn
            ≡ record { out = false; pushed = slots_written (the_unit seat.old.me.0).part } }
        requires opening { N.opening ≡ self.now.opening }
        requires op { N.op ≡ op.now }
        requires reply { N.reply ≡ reply.now }
        ensures seat { seat.new.table_id ≡ seat.old.table_id }
        ensures view { seat.new.me
            ≡ (
              pair_view
                  (unit_left (the_unit seat.old.me.0)
                  (answer_of (the_caller seat.old.me.0) op.now reply.now
                  (epoch_of (the_unit seat.old.me.0).part.stage)))
                  (caller_answered (the_caller seat.old.me.0) (the_unit seat.old.me.0)
                  (answer_of (the_caller seat.old.me.0) op.now reply.now
                  (epoch_of (the_unit seat.old.me.0).part.stage))),
              seat.old.me.1,
            ) }
        ensures front { IsNotBeyond (the_caller seat.old.me.0) (the_unit seat.old.me.0) }
        ensures sound_before { (now durable : ℕ)
            × IsSoundUnit N.opening now durable (the_unit seat.old.me.0) }
        ensures sound { (now durable : ℕ) × IsSoundUnit N.opening now durable
            (unit_left (the_unit seat.old.me.0)
            (answer_of (the_caller seat.old.me.0) op.now reply.now
            (epoch_of (the_unit seat.old.me.0).part.stage))) }
    {
        self.table.shared.store::<Leaves<N>>(seat, place, 0);
    }

    /// Answers a caller with what changes nothing.
    pub fn read_entry<G: Gate>(
        &self,
        seat: &mut UnitSeat,
        ticket: &mut Ticket,
        op: &Op,
        reply: &Reply,
        gate: &mut G,
    ) -> Result<Receipt, Cut>
        requires heap { seat.old.table ≡ self.now.table }
        requires ticket { ticket.old.table ≡ self.now.table }
        requires may { CanRead self.now.opening.layout seat.old.known.unit seat.old.known.part
            ticket.old.known.part op.now reply.now }
        requires clean { IsTrue (are_clean (units_of self.now.opening.layout)
            seat.old.known.clean) }
        ensures gate { IsAskedOnce G.cuts G.endless G.asked gate.old gate.new result }
        ensures unit { IfOk result (λ r. seat.new ≡ record {
          table = seat.old.table;
          known = unit_read seat.old.known r.entry.epoch r.entry;
        }) }
        ensures caller { IfOk result (λ r. ticket.new ≡ record {
          table = ticket.old.table;
          known = caller_answered ticket.old.known seat.old.known r.entry;
        }) }
        ensures receipt { IfOk result (λ r. r ≡ receipt_of seat.old.known
            (answer_of ticket.old.known op.now reply.now r.entry.epoch)) }
        ensures front { OnOk result (IsNotBeyond ticket.old.known seat.old.known) }
        ensures clock { IfOk result (λ r. IsClock (record {
          newest = max seat.old.known.learnt.newest ticket.old.known.part.newest;
          durable = max seat.old.known.learnt.durable ticket.old.known.part.durable;
        })
            seat.old.known.part r.entry.epoch) }
        ensures sound_before { OnOk result ((now durable : ℕ)
            × IsSoundUnit self.now.opening now durable seat.old.known) }
        ensures sound { IfOk result (λ r. (durable : ℕ)
            × IsSoundUnit self.now.opening r.entry.epoch durable seat.new.known) }
        ensures cut { OnErr result ((seat.new ≡ seat.old) × (ticket.new ≡ ticket.old)) }
    {
        let answer = NextAnswer::of(seat, ticket);
        let epoch = self.read_epoch(seat, ticket, op, reply, gate)?;
        Ok(answer.receipt(op, reply, epoch))
    }

    /// The same as `read_entry`, and returns only the entry's epoch, which is the clock. The receipt
    /// is given by the `NextAnswer` that the unit had before.
    pub fn read_epoch<G: Gate>(
        &self,
        seat: &mut UnitSeat,
        ticket: &mut Ticket,
        op: &Op,
        reply: &Reply,
        gate: &mut G,
    ) -> Result<Epoch, Cut>
        requires heap { seat.old.table ≡ self.now.table }
        requires ticket { ticket.old.table ≡ self.now.table }
        requires may { CanRead self.now.opening.layout seat.old.known.unit seat.old.known.part
            ticket.old.known.part op.now reply.now }
        requires clean { IsTrue (are_clean (units_of self.now.opening.layout)
            seat.old.known.clean) }
        ensures gate { IsAskedOnce G.cuts G.endless G.asked gate.old gate.new result }
        ensures unit { IfOk result (λ epoch. seat.new ≡ record {
          table = seat.old.table;
          known = unit_read seat.old.known epoch
              (answer_of ticket.old.known op.now reply.now epoch);
        }) }
        ensures caller { IfOk result (λ epoch. ticket.new ≡ record {
          table = ticket.old.table;
          known = caller_answered ticket.old.known seat.old.known
              (answer_of ticket.old.known op.now reply.now epoch);
        }) }
        ensures front { OnOk result (IsNotBeyond ticket.old.known seat.old.known) }
        ensures clock { IfOk result (λ epoch. IsClock (record {
          newest = max seat.old.known.learnt.newest ticket.old.known.part.newest;
          durable = max seat.old.known.learnt.durable ticket.old.known.part.durable;
        })
            seat.old.known.part epoch) }
        ensures sound_before { OnOk result ((now durable : ℕ)
            × IsSoundUnit self.now.opening now durable seat.old.known) }
        ensures sound { IfOk result (λ epoch. (durable : ℕ)
            × IsSoundUnit self.now.opening epoch durable seat.new.known) }
        ensures cut { OnErr result ((seat.new ≡ seat.old) × (ticket.new ≡ ticket.old)) }
    {
        gate.step()?;
        let shared = &self.table.shared;
        let whole = shared.split_seat::<Whole>(&mut ticket.seat);
        shared.join_seat::<TakesCallers>(&mut seat.seat, whole);
        let epoch = self.load_read::<Brand>(&mut seat.seat, op, reply);
        ticket.seat = shared.split_seat::<Callers>(&mut seat.seat);
        let (unit, place) = (seat.unit, seat.entries);
        seat.entries += 1;
        seat.newest = epoch;
        ticket.calls += 1;
        ticket.newest = epoch;
        ticket.fronts.set(unit, place + 1);
        Ok(epoch)
    }

    // The load of the clock, by a seat that has both parts.
    fn load_read<N: Answer>(&self, seat: &mut Seat<Cell, View>, op: &Op, reply: &Reply) -> Epoch
        requires heap { seat.old.table_id ≡ self.now.table }
        requires view { seat.old.me.0
            ≡ pair_view (the_unit seat.old.me.0) (the_caller seat.old.me.0) }
        requires may { CanRead self.now.opening.layout (the_unit seat.old.me.0).unit
            (the_unit seat.old.me.0).part (the_caller seat.old.me.0).part op.now reply.now }
        requires clean { IsTrue (are_clean (units_of self.now.opening.layout)
            (the_unit seat.old.me.0).clean) }
        requires opening { N.opening ≡ self.now.opening }
        requires op { N.op ≡ op.now }
        requires reply { N.reply ≡ reply.now }
        ensures seat { seat.new.table_id ≡ seat.old.table_id }
        ensures view { seat.new.me
            ≡ (
              pair_view
                  (unit_read (the_unit seat.old.me.0) result
                  (answer_of (the_caller seat.old.me.0) op.now reply.now result))
                  (caller_answered (the_caller seat.old.me.0) (the_unit seat.old.me.0)
                  (answer_of (the_caller seat.old.me.0) op.now reply.now result)),
              seat.old.me.1,
            ) }
        ensures front { IsNotBeyond (the_caller seat.old.me.0) (the_unit seat.old.me.0) }
        ensures clock { IsClock (record {
          newest = max (the_unit seat.old.me.0).learnt.newest
              (the_caller seat.old.me.0).part.newest;
          durable = max (the_unit seat.old.me.0).learnt.durable
              (the_caller seat.old.me.0).part.durable;
        }) (the_unit seat.old.me.0).part result }
        ensures sound_before { (now durable : ℕ)
            × IsSoundUnit N.opening now durable (the_unit seat.old.me.0) }
        ensures sound { (durable : ℕ) × IsSoundUnit N.opening result durable
            (unit_read (the_unit seat.old.me.0) result
            (answer_of (the_caller seat.old.me.0) op.now reply.now result)) }
    {
        self.table.shared.load::<Reads<N>>(seat, 0)
    }

    /// Leaves the trace of a thread that was cut in the unit: the unit makes no step any more. No
    /// gate is asked.
    pub fn freeze(&self, seat: &mut UnitSeat, ticket: &mut Ticket)
        requires heap { seat.old.table ≡ self.now.table }
        requires ticket { ticket.old.table ≡ self.now.table }
        requires may { IsTrue (can_freeze seat.old.known.part) }
        requires clean { IsTrue (are_clean (units_of self.now.opening.layout)
            seat.old.known.clean) }
        ensures unit { seat.new ≡ record {
          table = seat.old.table;
          known = unit_frozen seat.old.known ticket.old.known.caller;
        } }
        ensures caller { ticket.new ≡ record {
          table = ticket.old.table;
          known = caller_cut ticket.old.known seat.old.known;
        } }
    {
        let place = self.announcement(seat);
        let odd = seat.odd();
        let shared = &self.table.shared;
        let whole = shared.split_seat::<Whole>(&mut ticket.seat);
        shared.join_seat::<TakesCallers>(&mut seat.seat, whole);
        shared.store::<Freezes>(&mut seat.seat, place, odd);
        ticket.seat = shared.split_seat::<Callers>(&mut seat.seat);
    }
}
