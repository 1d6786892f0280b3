// What the words of a slot are read as, and which words are read as a record.
ghost use Rattle.mont_laws.specs.SlotReadings.{RecordsAreReadBack, WordsSpellWhatIsRead};

/// The words of a record are read as that record.
pub fn records_are_read_back()
    ensures { RecordsAreReadBack }
{}

/// What is read as a record are its words.
pub fn words_spell_what_is_read()
    ensures { WordsSpellWhatIsRead }
{}
