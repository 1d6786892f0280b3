// Where the words of a slot lie, and what a store of one word changes.
ghost use Rattle.mont_laws.specs.SlotWords.{SlotsHaveWords, WordsHaveSlots, SlotsMakeWords, StoresChangeOneField, ClockStoresChangeClock, UnitsHaveSlots, SlotsHaveUnits};

/// Where the words of a slot lie.
pub fn slots_have_words()
    ensures { SlotsHaveWords }
{}

/// Each word after the clock is one field of one slot.
pub fn words_have_slots()
    ensures { WordsHaveSlots }
{}

/// The clock and the slots are all that words have.
pub fn slots_make_words()
    ensures { SlotsMakeWords }
{}

/// A store into a field of a slot changes no other slot, and not the clock.
pub fn stores_change_one_field()
    ensures { StoresChangeOneField }
{}

/// A store of the clock changes no slot.
pub fn clock_stores_change_clock()
    ensures { ClockStoresChangeClock }
{}

/// The slots of a unit, by rising number.
pub fn units_have_slots()
    ensures { UnitsHaveSlots }
{}

/// A slot is one of the store where its unit is.
pub fn slots_have_units()
    ensures { SlotsHaveUnits }
{}
