// What the records that an operation writes do to the structure of a unit.
ghost use Rattle.mont_laws.specs.Effects.{LeadOn, LeadOnInCuts, JudgedInTurn, CanBeWritten};

/// The effects of an operation lead to the state after it.
pub fn effects_lead_on()
    ensures { LeadOn }
{}

/// With the entry of the operation they do so in each cut.
pub fn effects_lead_on_in_cuts()
    ensures { LeadOnInCuts }
{}

/// Effects may be judged on the records before all of them, or one after the other.
pub fn effects_judged_in_turn()
    ensures { JudgedInTurn }
{}

/// The effects of each operation can be written.
pub fn effects_can_be_written()
    ensures { CanBeWritten }
{}
