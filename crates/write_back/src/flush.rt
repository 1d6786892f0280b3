// A flush: where it stands, and how it goes on through the lists of all units.
ghost use Rattle.std.specs.Prelude.{◌≡◌, ◌+◌, ◌*◌, ◌^◌, ◌<◌, true, false, is_err, IsTrue, IsFalse, length, slice_get, OnOk, OnErr, Some};
ghost use Rattle.write_back.specs.AskedSteps.{AsksEachStep};
ghost use Rattle.write_back.specs.Flush.{StandsAt, IsFlushed, flush_start, slots_out, slot_in, words_done, behind_word, waiting_at, with_flush_of};
ghost use Rattle.mont_base.specs.declared.constants.TheConstants.{FIELDS};
ghost use Rattle.mont_base.specs.Layout.{IsLayout};
ghost use Rattle.heap.specs.GateAsked.{IsAskedOften};
ghost use Rattle.heap_pass.specs.OfLayout.{IsOfLayout};

use core_steps::AdvPart;
use heap::{AdvSeat, Heap};
use mont_base::{Cut, FIELDS, Gate, Slot, SlotList, Unit};

/// How far a write-back is.
#[derive(Debug, Drop)]
pub struct Flush {
    /// The lists of the units below were given back empty.
    pub unit: Unit,
    /// The list of this unit, while it is out.
    pub list: Option<SlotList>,
    /// How many of its slots are durable.
    pub at: u64,
    /// How many fields of the next one are.
    pub field: u64,
    /// Whether the word at hand is loaded and not yet durable.
    pub held: bool,
}

impl Flush {
    /// A flush that has not begun.
    pub fn start() -> Flush
        ensures { result ≡ flush_start }
    {
        Flush {
            unit: 0,
            list: None,
            at: 0,
            field: 0,
            held: false,
        }
    }

    /// Goes on from where it stands: takes the full list of each unit in order, makes each field of
    /// each of its slots durable, and gives the list back empty. Then it stands at its end. After
    /// `Cut` the next call goes on.
    pub fn flush_epoch<G: Gate>(
        &mut self,
        heap: &Heap,
        seat: &mut AdvSeat,
        gate: &mut G,
    ) -> Result<(), Cut>
        requires heap { seat.old.table ≡ heap.now.table }
        requires layout { IsOfLayout heap.now.opening.layout seat.old.known }
        requires stands { StandsAt self.old seat.old.known }
        ensures gate { IsAskedOften G.cuts G.endless gate.old gate.new (is_err result) }
        ensures asked { AsksEachStep G.asked seat.old.known.steps seat.new.known.steps
            gate.old gate.new (is_err result) }
        ensures stands { StandsAt self.new seat.new.known }
        ensures stays { seat.new ≡ record {
          table = seat.old.table;
          known = with_flush_of seat.old.known seat.new.known;
        } }
        ensures ok { OnOk result (IsFlushed seat.new.known) }
        ensures left { OnErr result (seat.new.known.turn.emptied < seat.new.known.units) }
    {
        for _unit in self.unit..heap.layout().units() {
            if self.take(heap, seat) {
                self.flush_list(heap, seat, gate)?;
                self.give(heap, seat);
            }
        }
        Ok(())
    }

    // Takes the list of the unit out, unless it is out, and tells whether one is. A unit that
    // listed nothing is after at once.
    fn take(&mut self, heap: &Heap, seat: &mut AdvSeat) -> bool
        requires heap { seat.old.table ≡ heap.now.table }
        requires layout { IsOfLayout heap.now.opening.layout seat.old.known }
        requires range { IsLayout heap.now.opening.layout }
        requires stands { StandsAt self.old seat.old.known }
        requires unit { seat.old.known.turn.emptied < seat.old.known.units }
        ensures stands { StandsAt self.new seat.new.known }
        ensures stays { seat.new ≡ record {
          table = seat.old.table;
          known = with_flush_of seat.old.known seat.new.known;
        } }
        ensures steps { seat.new.known.steps ≡ seat.old.known.steps }
        ensures out { IsTrue result → seat.new.known.turn
            ≡ record { emptied = seat.old.known.turn.emptied; out = true } }
        ensures behind { IsFalse result → seat.new.known.turn
            ≡ record { emptied = seat.old.known.turn.emptied + 1; out = false } }
    {
        if self.list.is_some() {
            return true;
        }
        match heap.take_listed(seat, self.unit) {
            Some(list) => {
                self.list = Some(list);
                true
            }
            None => {
                self.unit += 1;
                false
            }
        }
    }

    // Makes the slots of that list durable, from the word at hand on.
    fn flush_list<G: Gate>(
        &mut self,
        heap: &Heap,
        seat: &mut AdvSeat,
        gate: &mut G,
    ) -> Result<(), Cut>
        requires heap { seat.old.table ≡ heap.now.table }
        requires layout { IsOfLayout heap.now.opening.layout seat.old.known }
        requires range { IsLayout heap.now.opening.layout }
        requires stands { StandsAt self.old seat.old.known }
        ensures gate { IsAskedOften G.cuts G.endless gate.old gate.new (is_err result) }
        ensures asked { AsksEachStep G.asked seat.old.known.steps seat.new.known.steps
            gate.old gate.new (is_err result) }
        ensures stands { StandsAt self.new seat.new.known }
        ensures stays { seat.new ≡ record {
          table = seat.old.table;
          known = with_flush_of seat.old.known seat.new.known;
        } }
        ensures turn { seat.new.known.turn ≡ seat.old.known.turn }
        ensures ok { OnOk result (self.new.at ≡ length (slots_out seat.old.known)) }
    {
        while let Some(slot) = self.slot() {
            if self.held {
                self.persist(heap, seat, slot, gate)?;
            } else {
                self.flush_slot(heap, seat, slot, gate)?;
            }
        }
        Ok(())
    }

    // Gives the list back empty, and goes to the next unit.
    fn give(&mut self, heap: &Heap, seat: &mut AdvSeat)
        requires heap { seat.old.table ≡ heap.now.table }
        requires layout { IsOfLayout heap.now.opening.layout seat.old.known }
        requires range { IsLayout heap.now.opening.layout }
        requires stands { StandsAt self.old seat.old.known }
        requires out { seat.old.known.turn.out ≡ true }
        requires end { self.old.at ≡ length (slots_out seat.old.known) }
        ensures stands { StandsAt self.new seat.new.known }
        ensures stays { seat.new ≡ record {
          table = seat.old.table;
          known = with_flush_of seat.old.known seat.new.known;
        } }
        ensures steps { seat.new.known.steps ≡ seat.old.known.steps }
        ensures home { seat.new.known.turn
            ≡ record { emptied = seat.old.known.turn.emptied + 1; out = false } }
    {
        match self.list.take() {
            Some(mut list) => {
                list.clear();
                heap.give_empty(seat, self.unit, list);
                self.unit += 1;
                self.at = 0;
            }
            None => unreachable!(),
        }
    }

    // The slot at hand, where the list that is out has one.
    fn slot(&self) -> Option<Slot>
        ensures { result ≡ slot_in self.now.list self.now.at }
    {
        match &self.list {
            Some(list) => {
                if self.at < list.len() {
                    Some(list.at(self.at))
                } else {
                    None
                }
            }
            None => None,
        }
    }

    // Makes the words of the slot durable from the one at hand on, which is not loaded, and goes to
    // the next slot. Where the gate cuts, the word that would have come next is at hand.
    fn flush_slot<G: Gate>(
        &mut self,
        heap: &Heap,
        seat: &mut AdvSeat,
        slot: Slot,
        gate: &mut G,
    ) -> Result<(), Cut>
        requires heap { seat.old.table ≡ heap.now.table }
        requires layout { IsOfLayout heap.now.opening.layout seat.old.known }
        requires range { IsLayout heap.now.opening.layout }
        requires stands { StandsAt self.old seat.old.known }
        requires slot { slice_get (slots_out seat.old.known) self.old.at ≡ Some slot }
        requires unloaded { self.old.held ≡ false }
        ensures gate { IsAskedOften G.cuts G.endless gate.old gate.new (is_err result) }
        ensures asked { AsksEachStep G.asked seat.old.known.steps seat.new.known.steps
            gate.old gate.new (is_err result) }
        ensures stands { StandsAt self.new seat.new.known }
        ensures stays { seat.new ≡ record {
          table = seat.old.table;
          known = with_flush_of seat.old.known seat.new.known;
        } }
        ensures turn { seat.new.known.turn ≡ seat.old.known.turn }
        ensures ok { OnOk result (words_done self.new ≡ FIELDS * (self.old.at + 1)) }
    {
        let flushed = heap.flush_slot(seat, slot, gate);
        match flushed {
            Ok(()) => {
                self.at += 1;
                self.field = 0;
            }
            Err(Cut) => self.wait_at(seat.part()),
        }
        flushed
    }

    // The word of the slot that an advancer with this part has at hand.
    fn wait_at(&mut self, part: AdvPart)
        ensures { self.new ≡ waiting_at self.old part }
    {
        match part {
            AdvPart::Flushing { field, .. } => {
                self.field = field;
                self.held = false;
            }
            AdvPart::Holding { field, .. } => {
                self.field = field;
                self.held = true;
            }
            _ => {}
        }
    }

    // Makes the word that is loaded durable, and goes to the next one.
    fn persist<G: Gate>(
        &mut self,
        heap: &Heap,
        seat: &mut AdvSeat,
        slot: Slot,
        gate: &mut G,
    ) -> Result<(), Cut>
        requires heap { seat.old.table ≡ heap.now.table }
        requires layout { IsOfLayout heap.now.opening.layout seat.old.known }
        requires range { IsLayout heap.now.opening.layout }
        requires stands { StandsAt self.old seat.old.known }
        requires slot { slice_get (slots_out seat.old.known) self.old.at ≡ Some slot }
        requires held { self.old.held ≡ true }
        ensures gate { IsAskedOften G.cuts G.endless gate.old gate.new (is_err result) }
        ensures asked { AsksEachStep G.asked seat.old.known.steps seat.new.known.steps
            gate.old gate.new (is_err result) }
        ensures stands { StandsAt self.new seat.new.known }
        ensures stays { seat.new ≡ record {
          table = seat.old.table;
          known = with_flush_of seat.old.known seat.new.known;
        } }
        ensures turn { seat.new.known.turn ≡ seat.old.known.turn }
        ensures ok { OnOk result (words_done self.new ≡ words_done self.old + 1) }
    {
        heap.persist_word(seat, slot, gate)?;
        self.go_on();
        Ok(())
    }

    // The word after the one at hand, not loaded.
    fn go_on(&mut self)
        requires place { self.old.at + 1 < 2 ^ 64 }
        requires field { self.old.field < FIELDS }
        ensures { self.new ≡ behind_word self.old }
    {
        self.held = false;
        if self.field + 1 < FIELDS as u64 {
            self.field += 1;
        } else {
            self.at += 1;
            self.field = 0;
        }
    }
}
