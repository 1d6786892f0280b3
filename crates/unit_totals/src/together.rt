// Entries of one epoch, and an entry that a cut left alone, after a crash.
ghost use Rattle.unit_totals.specs.Together.{EntryLeftAloneIsBehindCut, OneEpochStandsTogether};

/// Two answered calls of one epoch, as both of a shift are, are both found after a crash, or
/// neither is.
pub fn one_epoch_stands_together()
    ensures { OneEpochStandsTogether }
{}

/// The entry that a cut of a shift left alone is found after no crash: its caller keeps that it
/// left the other unit within the entry's epoch.
pub fn entry_left_alone_is_behind_cut()
    ensures { EntryLeftAloneIsBehindCut }
{}
