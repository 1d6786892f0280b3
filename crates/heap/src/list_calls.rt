// Lists of slots, moved out of the table and back into it. No word changes, and no gate is asked.
ghost use Rattle.std.specs.Prelude.{◌≡◌, ◌<◌, ◌≤◌, ◌+◌, ◌++◌, [], length, map, true, false, IsTrue, IfSome, IfNone, OnSome};
ghost use Rattle.mont_base.specs.declared.constants.TheConstants.{MOST_UNITS};
ghost use Rattle.core_steps.specs.Stages.{is_within, passed_of};
ghost use Rattle.heap_rule.specs.Plays.{HasRoom, AreSlots};
ghost use Rattle.heap_rule.specs.Views.{home_turn, list_place, listed_in, slots_written, list_at, unit_took, unit_gave, advancer_took, advancer_gave};

use crate::heap::Heap;
use crate::in_slot::InSlot;
use crate::seats::{AdvSeat, UnitSeat};
use heap_rule::{GivesEmpty, GivesList, TakesFull, TakesList};
use mont_base::{Epoch, SlotList, Unit};

impl Heap {
    /// Takes the unit's list of its epoch out: the slots of its records of this epoch, and what was
    /// pushed. It has room for all that the unit has written.
    pub fn take_list(&self, seat: &mut UnitSeat) -> SlotList
        requires heap { seat.old.table ≡ self.now.table }
        requires may { IsTrue (is_within seat.old.known.part.stage) }
        requires home { seat.old.known.turn.out ≡ false }
        ensures list { result ≡ record {
          slots = listed_in seat.old.known ++ seat.old.known.turn.pushed;
          room = seat.old.known.room;
        } }
        ensures room { HasRoom seat.old.known }
        ensures out { seat.new
            ≡ record { table = seat.old.table; known = unit_took seat.old.known } }
    {
        let place = place(seat.unit, seat.epoch);
        self.table.shared.load::<TakesList>(&mut seat.seat, 0);
        match self.table.shared.exchange(&mut seat.seat, place, None) {
            Some(list) => list,
            None => unreachable!(),
        }
    }

    /// Gives the list back, with the unit's written slots pushed in their order.
    pub fn give_list(&self, seat: &mut UnitSeat, list: SlotList)
        requires heap { seat.old.table ≡ self.now.table }
        requires may { IsTrue (is_within seat.old.known.part.stage) }
        requires out { seat.old.known.turn.out ≡ true }
        requires list { list ≡ record {
          slots = listed_in seat.old.known ++ slots_written seat.old.known.part;
          room = seat.old.known.room;
        } }
        ensures { seat.new ≡ record { table = seat.old.table; known = unit_gave seat.old.known } }
    {
        let home = place(seat.unit, seat.epoch);
        let _ = self.table.shared.exchange(&mut seat.seat, home, Some(list));
        self.table.shared.load::<GivesList>(&mut seat.seat, 0);
    }

    /// Pushes the slots of all that the unit has written after its list of its epoch, where that
    /// stands: `take_list`, a push for each, and `give_list`, without a copy of the list.
    pub fn list_written<W: InSlot>(&self, seat: &mut UnitSeat, written: &[W])
        requires heap { seat.old.table ≡ self.now.table }
        requires may { IsTrue (is_within seat.old.known.part.stage) }
        requires home { seat.old.known.turn ≡ home_turn }
        requires written { map W.in_slot written.now ≡ slots_written seat.old.known.part }
        ensures { seat.new ≡ record { table = seat.old.table; known = unit_gave seat.old.known } }
    {
        let place = place(seat.unit, seat.epoch);
        self.table.shared.load::<TakesList>(&mut seat.seat, 0);
        match seat.seat.slot_mut(&self.table.shared, place) {
            Some(list) => push_slots(list, written),
            None => unreachable!(),
        }
        self.table.shared.load::<GivesList>(&mut seat.seat, 0);
    }

    /// Takes out the full list of the next unit, which was passed.
    pub fn take_full(&self, seat: &mut AdvSeat, unit: Unit) -> SlotList
        requires heap { seat.old.table ≡ self.now.table }
        requires next { unit ≡ seat.old.known.turn.emptied }
        requires inside { unit < seat.old.known.units }
        requires passed { unit < passed_of seat.old.known.units seat.old.known.part }
        requires home { seat.old.known.turn.out ≡ false }
        ensures list { result ≡ record {
          slots = list_at seat.old.known.lists unit;
          room = seat.old.known.room;
        } }
        ensures slots { AreSlots seat.old.known (list_at seat.old.known.lists unit) }
        ensures out { seat.new
            ≡ record { table = seat.old.table; known = advancer_took seat.old.known } }
    {
        let home = place(unit, seat.clock + 1);
        self.table.shared.load::<TakesFull>(&mut seat.seat, 0);
        match self.table.shared.exchange(&mut seat.seat, home, None) {
            Some(list) => list,
            None => unreachable!(),
        }
    }

    /// Takes the full list of the next unit, which was passed, out where it has slots. An empty one
    /// is given back where it stands: `take_full` and `give_empty`, and nothing is moved.
    pub fn take_listed(&self, seat: &mut AdvSeat, unit: Unit) -> Option<SlotList>
        requires heap { seat.old.table ≡ self.now.table }
        requires next { unit ≡ seat.old.known.turn.emptied }
        requires inside { unit < seat.old.known.units }
        requires passed { unit < passed_of seat.old.known.units seat.old.known.part }
        requires home { seat.old.known.turn.out ≡ false }
        ensures list { IfSome result (λ list. list ≡ record {
          slots = list_at seat.old.known.lists unit;
          room = seat.old.known.room;
        }) }
        ensures some { IfSome result (λ list. 0 < length list.slots) }
        ensures slots { AreSlots seat.old.known (list_at seat.old.known.lists unit) }
        ensures out { OnSome result (seat.new
            ≡ record { table = seat.old.table; known = advancer_took seat.old.known }) }
        ensures none { IfNone result (list_at seat.old.known.lists unit ≡ []) }
        ensures back { IfNone result (seat.new ≡ record {
          table = seat.old.table;
          known = advancer_gave (advancer_took seat.old.known);
        }) }
    {
        let place = place(unit, seat.clock + 1);
        self.table.shared.load::<TakesFull>(&mut seat.seat, 0);
        let empty = match seat.seat.slot_mut(&self.table.shared, place) {
            Some(list) => list.is_empty(),
            None => unreachable!(),
        };
        if !empty {
            return self.table.shared.exchange(&mut seat.seat, place, None);
        }
        self.table.shared.load::<GivesEmpty>(&mut seat.seat, 0);
        seat.emptied += 1;
        None
    }

    /// Gives it back empty.
    pub fn give_empty(&self, seat: &mut AdvSeat, unit: Unit, list: SlotList)
        requires heap { seat.old.table ≡ self.now.table }
        requires next { unit ≡ seat.old.known.turn.emptied }
        requires inside { unit < seat.old.known.units }
        requires out { seat.old.known.turn.out ≡ true }
        requires empty { list ≡ record { slots = []; room = seat.old.known.room } }
        ensures { seat.new
            ≡ record { table = seat.old.table; known = advancer_gave seat.old.known } }
    {
        let home = place(unit, seat.clock + 1);
        let _ = self.table.shared.exchange(&mut seat.seat, home, Some(list));
        self.table.shared.load::<GivesEmpty>(&mut seat.seat, 0);
        seat.emptied += 1;
    }
}

// The slot of the table in which a unit's list for an epoch stands.
fn place(unit: Unit, epoch: Epoch) -> usize
    requires { unit < MOST_UNITS }
    ensures { result ≡ list_place unit epoch }
{
    (2 * unit + epoch % 2) as usize
}

// Pushes the slots of what was written, in their order.
fn push_slots<W: InSlot>(list: &mut SlotList, written: &[W])
    requires { length list.old.slots + length written.now ≤ list.old.room }
    ensures { list.new ≡ record {
      slots = list.old.slots ++ map W.in_slot written.now;
      room = list.old.room;
    } }
{
    for one in written {
        list.push(one.slot());
    }
}
