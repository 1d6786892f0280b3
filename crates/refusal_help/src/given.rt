// What the lines before a line gave.
ghost use Rattle.std.specs.Prelude.{◌≡◌, ◌<◌, ◌↔◌, IsTrue, Some};

use mont_base::{Layout, UnitKind};

/// What the lines before a line gave.
#[derive(Clone, Copy, Debug, PartialEq, Eq)]
pub struct Given {
    /// The units and their slots, after a header.
    pub layout: Option<Layout>,
    /// How many callers there are.
    pub callers: u64,
    /// The least gate that a stop line may name; none where lines of callers have begun.
    pub gate: Option<u64>,
}

impl Given {
    ghost use Rattle.refusal_help.specs.Words.{units_given, slots_given, kind_given, maps_given, nothing_given};

    /// What is given before the first line: no unit, and no caller.
    pub fn nothing() -> Given
        ensures { result ≡ nothing_given }
    {
        Given {
            layout: None,
            callers: 0,
            gate: Some(0),
        }
    }

    /// How many units there are.
    pub fn units(&self) -> u64
        ensures { result ≡ units_given self.now.layout }
    {
        match &self.layout {
            Some(layout) => layout.units(),
            None => 0,
        }
    }

    /// How many slots all units have.
    pub fn slots(&self) -> u64
        ensures { result ≡ slots_given self.now.layout }
    {
        match &self.layout {
            Some(layout) => layout.total(),
            None => 0,
        }
    }

    /// How many map units there are.
    pub fn maps(&self) -> u64
        ensures { result ≡ maps_given self.now.layout }
    {
        match &self.layout {
            Some(layout) => layout.maps(),
            None => 0,
        }
    }

    /// The kind of a unit, if there is one of this number.
    pub fn kind(&self, unit: u64) -> Option<UnitKind>
        ensures { result ≡ kind_given self.now.layout unit }
    {
        match &self.layout {
            Some(layout) => layout.kinds().get(unit),
            None => None,
        }
    }
}
