// The steps by which the advancer passes the units, writes slots back, and moves the clock.
ghost use Rattle.std.specs.Prelude.{◌≡◌, ◌<◌, length, false, is_err, IsTrue, IfOk, OnOk, OnErr};
ghost use Rattle.mont_base.specs.declared.constants.TheConstants.{LAST, FIELDS};
ghost use Rattle.mont_base.specs.Layout.{units_of, total_of};
ghost use Rattle.core_steps.specs.declared.parts.AdvPart.TheVariants.{Rest, Flushing};
ghost use Rattle.core_steps.specs.Advancing.{can_check, unit_at_hand, after_check, is_clocked};
ghost use Rattle.core_steps.specs.Flushing.{can_load_word, can_persist_word, after_persist_word, is_flushed};
ghost use Rattle.heap_rule.specs.Plays.{IsAnnouncement, IsAhead, IsPlaceListed};
ghost use Rattle.heap_rule.specs.Views.{are_clean, joined, holding, place_at_hand, slot_at_hand, field_at_hand, word_in_hand, advancer_loaded, advancer_persisted, advancer_set, advancer_rested, advancer_view, the_advancer};
ghost use Rattle.heap_rule.specs.TableWords.{announcement_place, durable_place};
ghost use Rattle.heap.specs.FlushSteps.{Flushes, IsWithinSlot, with_hand_of, behind_slot};
ghost use Rattle.heap.specs.GateAsked.{IsAskedOnce, IsAskedOften};
ghost use Rattle.heap.specs.Passing.{RemembersList, ShowsList};

use crate::heap::Heap;
use crate::seats::AdvSeat;
use atomic_table::Seat;
use core_steps::AdvPart;
use heap_rule::{Cell, Checks, LoadsWord, Opened, PersistsClock, PersistsWord, SetsClock, View};
use mont_base::{Cut, Epoch, FIELDS, Gate, Slot, Unit};
use std::marker::Brand;

impl Heap {
    /// Loads the announcement of the unit at hand. Where it lets the advancer pass, the seat then
    /// shows the unit's list for the epoch before the clock.
    pub fn load_told<G: Gate>(&self, seat: &mut AdvSeat, gate: &mut G) -> Result<u64, Cut>
        requires heap { seat.old.table ≡ self.now.table }
        requires may { IsTrue (can_check seat.old.known.clock seat.old.known.part) }
        requires clean { seat.old.known.part ≡ Rest
            → IsTrue (are_clean (units_of self.now.opening.layout) seat.old.known.clean) }
        ensures gate { IsAskedOnce G.cuts G.endless G.asked gate.old gate.new result }
        ensures ok { IfOk result (λ word. RemembersList self.now.opening seat.old seat.new word) }
        ensures word { IfOk result (λ word. IsAnnouncement word) }
        ensures durable { OnOk result (seat.new.known.durable ≡ seat.new.known.clock) }
        ensures cut { OnErr result (seat.new ≡ seat.old) }
    {
        gate.step()?;
        let place = self.announcement_at_hand(seat);
        let found = self.load_announced::<Brand>(&mut seat.seat, place);
        seat.part = checked(self.layout.units(), seat.clock, found, seat.part);
        Ok(found)
    }

    // The load of the announcement of the unit at hand, by the advancer's seat.
    fn load_announced<N: Opened>(&self, seat: &mut Seat<Cell, View>, place: usize) -> u64
        requires heap { seat.old.table_id ≡ self.now.table }
        requires view { seat.old.me.0 ≡ advancer_view (the_advancer seat.old.me.0) }
        requires place { place ≡ announcement_place self.now.opening.layout
            (unit_at_hand (the_advancer seat.old.me.0).part) }
        requires inside { place < self.now.table.words }
        requires hand { unit_at_hand (the_advancer seat.old.me.0).part
            < (the_advancer seat.old.me.0).units }
        requires may { IsTrue (can_check (the_advancer seat.old.me.0).clock
            (the_advancer seat.old.me.0).part) }
        requires clean { (the_advancer seat.old.me.0).part ≡ Rest
            → IsTrue (are_clean (units_of self.now.opening.layout)
            (the_advancer seat.old.me.0).clean) }
        requires opening { N.opening ≡ self.now.opening }
        ensures seat { seat.new.table_id ≡ seat.old.table_id }
        ensures view { ShowsList N.opening seat.old.me seat.new.me result }
        ensures word { IsAnnouncement result }
    {
        self.table.shared.load::<Checks<N>>(seat, place)
    }

    /// Loads the word at hand: a field of the next slot that is to be written back.
    pub fn load_word<G: Gate>(
        &self,
        seat: &mut AdvSeat,
        slot: Slot,
        gate: &mut G,
    ) -> Result<u64, Cut>
        requires heap { seat.old.table ≡ self.now.table }
        requires may { IsTrue (can_load_word (length (joined seat.old.known.lists))
            seat.old.known.part) }
        requires slot { slot ≡ slot_at_hand seat.old.known }
        requires inside { slot < total_of self.now.opening.layout }
        ensures gate { IsAskedOnce G.cuts G.endless G.asked gate.old gate.new result }
        ensures ok { IfOk result (λ word. seat.new
            ≡ record { table = seat.old.table; known = advancer_loaded seat.old.known word }) }
        ensures cut { OnErr result (seat.new ≡ seat.old) }
    {
        gate.step()?;
        let place = self.current(slot, field(seat.part));
        let found = self.table.shared.load::<LoadsWord>(&mut seat.seat, place);
        seat.part = held(seat.part, found);
        Ok(found)
    }

    /// Makes the loaded word durable.
    pub fn persist_word<G: Gate>(
        &self,
        seat: &mut AdvSeat,
        slot: Slot,
        gate: &mut G,
    ) -> Result<(), Cut>
        requires heap { seat.old.table ≡ self.now.table }
        requires may { IsTrue (can_persist_word seat.old.known.part) }
        requires slot { slot ≡ slot_at_hand seat.old.known }
        requires inside { slot < total_of self.now.opening.layout }
        ensures gate { IsAskedOnce G.cuts G.endless G.asked gate.old gate.new result }
        ensures ok { OnOk result (seat.new
            ≡ record { table = seat.old.table; known = advancer_persisted seat.old.known }) }
        ensures listed { OnOk result (IsPlaceListed seat.old.known) }
        ensures cut { OnErr result (seat.new ≡ seat.old) }
    {
        gate.step()?;
        let place = self.durable(slot, field(seat.part));
        let value = word(seat.part);
        self.table
            .shared
            .store::<PersistsWord>(&mut seat.seat, place, value);
        seat.part = persisted(seat.part);
        Ok(())
    }

    /// Loads each word of a slot from the one at hand on, and makes it durable. Where the gate
    /// cuts, the advancer stands at the word that would have come next.
    pub fn flush_slot<G: Gate>(
        &self,
        seat: &mut AdvSeat,
        slot: Slot,
        gate: &mut G,
    ) -> Result<(), Cut>
        requires heap { seat.old.table ≡ self.now.table }
        requires may { IsTrue (can_load_word (length (joined seat.old.known.lists))
            seat.old.known.part) }
        requires slot { slot ≡ slot_at_hand seat.old.known }
        requires inside { slot < total_of self.now.opening.layout }
        ensures gate { IsAskedOften G.cuts G.endless gate.old gate.new (is_err result) }
        ensures steps { Flushes G.asked seat.old.known gate.old seat.new.known gate.new
            (is_err result) }
        ensures stays { seat.new ≡ record {
          table = seat.old.table;
          known = with_hand_of seat.old.known seat.new.known;
        } }
        ensures ok { OnOk result (seat.new.known.part
            ≡ behind_slot (place_at_hand seat.old.known.part)) }
        ensures listed { OnOk result (IsPlaceListed seat.old.known) }
        ensures cut { OnErr result (IsWithinSlot seat.old.known seat.new.known) }
    {
        let done = slots_done(seat.part);
        let first = field(seat.part);
        let (part, flushed) = self.flush_fields(&mut seat.seat, slot, done, first, gate);
        seat.part = part;
        flushed
    }

    // The same by the advancer's seat, from a field on. Answers where the advancer then stands, and
    // whether the gate cut.
    fn flush_fields<G: Gate>(
        &self,
        seat: &mut Seat<Cell, View>,
        slot: Slot,
        done: u64,
        first: u64,
        gate: &mut G,
    ) -> (AdvPart, Result<(), Cut>)
        requires heap { seat.old.table_id ≡ self.now.table }
        requires view { seat.old.me.0 ≡ advancer_view (the_advancer seat.old.me.0) }
        requires part { (the_advancer seat.old.me.0).part ≡ Flushing done first }
        requires field { first < FIELDS }
        requires may { done < length (joined (the_advancer seat.old.me.0).lists) }
        requires slot { slot ≡ slot_at_hand (the_advancer seat.old.me.0) }
        requires inside { slot < total_of self.now.opening.layout }
        ensures seat { seat.new.table_id ≡ seat.old.table_id }
        ensures view { seat.new.me ≡ (
          advancer_view (with_hand_of (the_advancer seat.old.me.0)
              (the_advancer seat.new.me.0)),
          seat.old.me.1,
        ) }
        ensures part { result.0 ≡ (the_advancer seat.new.me.0).part }
        ensures gate { IsAskedOften G.cuts G.endless gate.old gate.new (is_err result.1) }
        ensures steps { Flushes G.asked (the_advancer seat.old.me.0) gate.old
            (the_advancer seat.new.me.0) gate.new (is_err result.1) }
        ensures ok { OnOk result.1 ((the_advancer seat.new.me.0).part ≡ behind_slot done) }
        ensures listed { OnOk result.1 (IsPlaceListed (the_advancer seat.old.me.0)) }
        ensures cut { OnErr result.1
            (IsWithinSlot (the_advancer seat.old.me.0) (the_advancer seat.new.me.0)) }
    {
        let words = self.layout.words() as usize;
        let start = self.current(slot, 0);
        for field in first..FIELDS as u64 {
            let Ok(()) = gate.step() else {
                return (AdvPart::Flushing { done, field }, Err(Cut));
            };
            let place = start + field as usize;
            let value = self.table.shared.load::<LoadsWord>(seat, place);
            let Ok(()) = gate.step() else {
                return (AdvPart::Holding { done, field, value }, Err(Cut));
            };
            self.table
                .shared
                .store::<PersistsWord>(seat, words + place, value);
        }
        (next_slot(done), Ok(()))
    }

    /// Moves the clock on, once all is written back and every list is at home and empty.
    pub fn set_clock<G: Gate>(&self, seat: &mut AdvSeat, gate: &mut G) -> Result<(), Cut>
        requires heap { seat.old.table ≡ self.now.table }
        requires may { IsTrue (is_flushed (length (joined seat.old.known.lists))
            seat.old.known.part) }
        requires empty { (seat.old.known.turn.emptied ≡ seat.old.known.units)
            × (seat.old.known.turn.out ≡ false) }
        ensures gate { IsAskedOnce G.cuts G.endless G.asked gate.old gate.new result }
        ensures ok { OnOk result (seat.new
            ≡ record { table = seat.old.table; known = advancer_set seat.old.known }) }
        ensures last { OnOk result (seat.old.known.clock < LAST) }
        ensures cut { OnErr result (seat.new ≡ seat.old) }
    {
        gate.step()?;
        let next = seat.clock + 1;
        self.table
            .shared
            .store::<SetsClock>(&mut seat.seat, 0, next);
        seat.clock = next;
        seat.emptied = 0;
        seat.part = AdvPart::Clocked;
        Ok(())
    }

    /// Makes the clock durable. It is then above the one with which the store opened.
    pub fn persist_clock<G: Gate>(&self, seat: &mut AdvSeat, gate: &mut G) -> Result<(), Cut>
        requires heap { seat.old.table ≡ self.now.table }
        requires may { IsTrue (is_clocked seat.old.known.part) }
        ensures gate { IsAskedOnce G.cuts G.endless G.asked gate.old gate.new result }
        ensures ok { OnOk result (seat.new
            ≡ record { table = seat.old.table; known = advancer_rested seat.old.known }) }
        ensures ahead { OnOk result (IsAhead self.now.opening seat.old.known) }
        ensures cut { OnErr result (seat.new ≡ seat.old) }
    {
        gate.step()?;
        let place = self.durable_clock();
        let clock = seat.clock;
        self.store_clock::<Brand>(&mut seat.seat, place, clock);
        seat.durable = clock;
        seat.part = AdvPart::Rest;
        Ok(())
    }

    // The store of the durable clock, by the advancer's seat.
    fn store_clock<N: Opened>(&self, seat: &mut Seat<Cell, View>, place: usize, clock: Epoch)
        requires heap { seat.old.table_id ≡ self.now.table }
        requires view { seat.old.me.0 ≡ advancer_view (the_advancer seat.old.me.0) }
        requires place { place ≡ durable_place self.now.opening.layout 0 }
        requires inside { place < self.now.table.words }
        requires clock { clock ≡ (the_advancer seat.old.me.0).clock }
        requires may { IsTrue (is_clocked (the_advancer seat.old.me.0).part) }
        requires opening { N.opening ≡ self.now.opening }
        ensures seat { seat.new.table_id ≡ seat.old.table_id }
        ensures view { seat.new.me
            ≡ (advancer_view (advancer_rested (the_advancer seat.old.me.0)), seat.old.me.1) }
        ensures ahead { IsAhead N.opening (the_advancer seat.old.me.0) }
    {
        self.table
            .shared
            .store::<PersistsClock<N>>(seat, place, clock);
    }
}

// The unit whose announcement is loaded next.
pub(crate) fn unit(part: AdvPart) -> Unit
    ensures { result ≡ unit_at_hand part }
{
    match part {
        AdvPart::Checking { unit } => unit,
        _ => 0,
    }
}

// The part once the announcement was loaded.
fn checked(units: u64, clock: Epoch, word: u64, part: AdvPart) -> AdvPart
    requires { unit_at_hand part < units }
    ensures { result ≡ after_check units clock word part }
{
    let unit = unit(part);
    if word != 0 && word / 2 < clock {
        return AdvPart::Checking { unit };
    }
    if unit + 1 < units {
        AdvPart::Checking { unit: unit + 1 }
    } else {
        AdvPart::Flushing { done: 0, field: 0 }
    }
}

// The place of the slot at hand among those that are to be written back.
fn slots_done(part: AdvPart) -> u64
    ensures { result ≡ place_at_hand part }
{
    match part {
        AdvPart::Flushing { done, .. } | AdvPart::Holding { done, .. } => done,
        _ => 0,
    }
}

// The field of the word at hand.
fn field(part: AdvPart) -> u64
    ensures { result ≡ field_at_hand part }
{
    match part {
        AdvPart::Flushing { field, .. } | AdvPart::Holding { field, .. } => field,
        _ => 0,
    }
}

// The word that was loaded.
fn word(part: AdvPart) -> u64
    ensures { result ≡ word_in_hand part }
{
    match part {
        AdvPart::Holding { value, .. } => value,
        _ => 0,
    }
}

// The part once the word was loaded.
fn held(part: AdvPart, found: u64) -> AdvPart
    ensures { result ≡ holding part found }
{
    match part {
        AdvPart::Flushing { done, field } => AdvPart::Holding {
            done,
            field,
            value: found,
        },
        other => other,
    }
}

// The part once that word is durable.
fn persisted(part: AdvPart) -> AdvPart
    requires { field_at_hand part < FIELDS }
    ensures { result ≡ after_persist_word part }
{
    match part {
        AdvPart::Holding { done, field, .. } => {
            if field + 1 < FIELDS as u64 {
                AdvPart::Flushing {
                    done,
                    field: field + 1,
                }
            } else {
                next_slot(done)
            }
        }
        other => other,
    }
}

// The part once so many slots and one more are durable.
fn next_slot(done: u64) -> AdvPart
    ensures { result ≡ behind_slot done }
{
    AdvPart::Flushing {
        done: done.saturating_add(1),
        field: 0,
    }
}
