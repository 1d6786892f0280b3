// What stands in slots that follow one another, where all stands by rising slot.
ghost use Rattle.std.specs.Prelude.{◌≡◌, ◌<◌, ◌≤◌, ℕ, AllPairs, filter};
ghost use Rattle.mont_base.specs.declared.record.Held.{Held};
ghost use Rattle.mont_laws.specs.UnitRecords.{HasLowerSlot};
ghost use Rattle.image_units.specs.UnitSlots.{IsPlaceOf, is_between, slot_of};

use mont_base::{Held, Slot};

// The records from one slot to before another.
pub(crate) fn records_between(records: &[Held], first: Slot, end: Slot) -> &[Held]
    requires rising { AllPairs HasLowerSlot records.now }
    requires ends { first ≤ end }
    ensures { result.now ≡ filter (λ (r : Held). is_between first end r.slot) records.now }
{
    let start = records_below(records, first);
    let stop = records_below(records, end);
    &records[start..stop]
}

// How many records stand below a slot.
fn records_below(records: &[Held], end: Slot) -> usize
    requires { AllPairs HasLowerSlot records.now }
    ensures { IsPlaceOf slot_of records.now end result }
{
    records.partition_point(|held| held.slot < end)
}

// The slots from one to before another.
pub(crate) fn slots_between(slots: &[Slot], first: Slot, end: Slot) -> &[Slot]
    requires rising { AllPairs (λ (a b : ℕ). a < b) slots.now }
    requires ends { first ≤ end }
    ensures { result.now ≡ filter (is_between first end) slots.now }
{
    let start = slots_below(slots, first);
    let stop = slots_below(slots, end);
    &slots[start..stop]
}

// How many slots are below another.
fn slots_below(slots: &[Slot], end: Slot) -> usize
    requires { AllPairs (λ (a b : ℕ). a < b) slots.now }
    ensures { IsPlaceOf (λ (slot : ℕ). slot) slots.now end result }
{
    slots.partition_point(|slot| *slot < end)
}
