// How views are cut in two and made one.
use crate::views::View;
use atomic_table::{Join, Split};

/// All of a view goes to a new seat.
pub struct Whole;

impl Split<View> for Whole {
    ghost use Rattle.heap_rule.specs.Views.{nothing};

    ghost left = { λ _. nothing };

    ghost right = { λ v. v };
}

/// The callers of a view go to a new seat.
pub struct Callers;

impl Split<View> for Callers {
    ghost use Rattle.heap_rule.specs.Views.{without_callers, only_callers};

    ghost left = { without_callers };

    ghost right = { only_callers };
}

/// The first unit of a view goes to a new seat.
pub struct FirstUnit;

impl Split<View> for FirstUnit {
    ghost use Rattle.heap_rule.specs.Views.{without_first_unit, only_first_unit};

    ghost left = { without_first_unit };

    ghost right = { only_first_unit };
}

/// The first caller of a view goes to a new seat.
pub struct FirstCaller;

impl Split<View> for FirstCaller {
    ghost use Rattle.heap_rule.specs.Views.{without_first_caller, only_first_caller};

    ghost left = { without_first_caller };

    ghost right = { only_first_caller };
}

/// A new seat has a note of the caller.
pub struct CopiesCaller;

impl Split<View> for CopiesCaller {
    ghost use Rattle.heap_rule.specs.Views.{copied_caller};

    ghost left = { λ v. v };

    ghost right = { copied_caller };
}

/// A seat takes the units of another.
pub struct TakesUnits;

impl Join<View> for TakesUnits {
    ghost use Rattle.heap_rule.specs.Views.{with_units, nothing};

    ghost both = { with_units };

    ghost spent = { nothing };
}

/// A seat takes the callers of another.
pub struct TakesCallers;

impl Join<View> for TakesCallers {
    ghost use Rattle.heap_rule.specs.Views.{with_callers, nothing};

    ghost both = { with_callers };

    ghost spent = { nothing };
}

/// The unit or the advancer takes a note of the caller, whose part comes to its seat.
pub struct ShowsCaller;

impl Join<View> for ShowsCaller {
    ghost use Rattle.heap_rule.specs.Views.{shown_caller, nothing};

    ghost both = { shown_caller };

    ghost spent = { nothing };
}

/// The caller, whose part comes to the seat, takes a note of the advancer.
pub struct HearsAdvancer;

impl Join<View> for HearsAdvancer {
    ghost use Rattle.heap_rule.specs.Views.{heard_advancer, nothing};

    ghost both = { heard_advancer };

    ghost spent = { nothing };
}

/// A seat takes the notes of another.
pub struct TakesNotes;

impl Join<View> for TakesNotes {
    ghost use Rattle.heap_rule.specs.Views.{with_notes, nothing};

    ghost both = { with_notes };

    ghost spent = { nothing };
}
