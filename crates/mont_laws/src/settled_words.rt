// Words that are current and durable alike, as a store begins with them.
ghost use Rattle.mont_laws.specs.SettledWords.{SettledWordsStay, WellFormedSlotsAreRead, WellFormedRecordsStand, EmptyWordsAreAStore};

/// A crash leaves words as they are that are current and durable alike.
pub fn settled_words_stay()
    ensures { SettledWordsStay }
{}

/// A slot of an image that recovery accepts has a record, or is closed or beyond the cut.
pub fn well_formed_slots_are_read()
    ensures { WellFormedSlotsAreRead }
{}

/// The records of an image that recovery accepts stand in their slots.
pub fn well_formed_records_stand()
    ensures { WellFormedRecordsStand }
{}

/// The words of a store that was never used are an image that recovery accepts, with nothing in it.
pub fn empty_words_are_a_store()
    ensures { EmptyWordsAreAStore }
{}
