// The kinds of a store's units.
ghost use Rattle.std.specs.Prelude.{◌≡◌, ◌≢◌, ◌<◌, ◌≤◌, ◌+◌, ◌-◌, ℕ, List, length, slice_get, Some, None, IfSome, MatchOption, MatchResult};
ghost use Rattle.mont_base.specs.declared.kinds.UnitKind.{UnitKind};
ghost use Rattle.mont_base.specs.Kinds.{maps_among};

use crate::constants::MOST_UNITS;
use std::marker::Model;

/// What kind of structure a unit is.
#[derive(Clone, Copy, Debug, PartialEq, Eq)]
pub enum UnitKind {
    /// A map, which shares the keys with the other maps of the store.
    Map,
    Queue,
    Graph,
    /// A map with all keys of its own, which is asked for ranges of them too.
    Ordered,
}

/// What stands for a kind: a letter in texts, and a number in images.
#[derive(Clone, Copy, Debug, PartialEq, Eq)]
pub struct Signs {
    pub letter: u8,
    pub code: u64,
}

// The kinds by rising code.
const KINDS: [UnitKind; 4] = [
    UnitKind::Map,
    UnitKind::Queue,
    UnitKind::Graph,
    UnitKind::Ordered,
];

impl UnitKind {
    ghost use Rattle.mont_base.specs.Layout.{signs_of, letter_of, code_of, same_kind};

    /// What stands for the kind.
    pub fn signs(self) -> Signs
        ensures { result ≡ signs_of self }
    {
        let (letter, code) = match self {
            UnitKind::Map => (b'm', 1),
            UnitKind::Queue => (b'q', 2),
            UnitKind::Graph => (b'g', 3),
            UnitKind::Ordered => (b'o', 4),
        };
        Signs { letter, code }
    }

    /// The letter that spells the kind in texts.
    pub fn letter(self) -> u8
        ensures { result ≡ letter_of self }
    {
        self.signs().letter
    }

    /// The kind that a letter spells.
    pub fn of_letter(letter: u8) -> Option<UnitKind>
        ensures { MatchOption result ((kind : UnitKind) → letter ≢ letter_of kind)
            (λ kind. letter ≡ letter_of kind) }
    {
        KINDS.iter().copied().find(|kind| kind.letter() == letter)
    }

    /// The number that stands for the kind in images.
    pub fn code(self) -> u64
        ensures { result ≡ code_of self }
    {
        self.signs().code
    }

    /// The kind that a number stands for.
    pub fn of_code(code: u64) -> Option<UnitKind>
        ensures { MatchOption result ((kind : UnitKind) → code ≢ code_of kind)
            (λ kind. code ≡ code_of kind) }
    {
        KINDS.iter().copied().find(|kind| kind.code() == code)
    }
}

/// Letters that spell no kinds of a store: none, more than sixteen, or another than `m`, `q`, `g`
/// and `o`.
#[derive(Clone, Copy, Debug, PartialEq, Eq)]
pub struct BadKinds;

/// The kinds of a store's units, in the order of the units, of which there are 1 to 16.
///
/// They are kept in place. Contracts see them as a list.
#[derive(Clone, Copy, Debug, PartialEq, Eq)]
pub struct Kinds {
    // after the last unit stand maps
    of_units: [UnitKind; MOST_UNITS],
    units: usize,
    // how many of the units are maps
    maps: u64,
}

impl Model for Kinds {
    ghost use Rattle.std.specs.Prelude.{List, length, take};
    ghost use Rattle.mont_base.specs.declared.kinds.UnitKind.{UnitKind};

    ghost Value = { List UnitKind };

    ghost use Rattle.mont_base.specs.Kinds.{padded, maps_among, KindsStand};

    ghost view = { λ k. take k.units k.of_units };

    ghost invariant = { λ k. KindsStand k.units k.maps k.of_units };

    ghost inverse = { λ ks. record {
      of_units = padded ks;
      units = length ks;
      maps = maps_among ks;
    } };

    ghost use Rattle.mont_base.specs.Kinds.{inverse_of_view};

    ghost inverse_ok = { λ k h. inverse_of_view k h };
}

impl Kinds {
    ghost use Rattle.mont_base.specs.Layout.{IsKinds, letters_of, same_kind, units_from};
    ghost use Rattle.mont_base.specs.Kinds.{maps_among, old_kinds};

    /// The kinds that letters spell, one letter for each unit.
    pub fn of_letters(letters: &[u8]) -> Result<Kinds, BadKinds>
        ensures { MatchResult result (λ kinds. letters.now ≡ letters_of kinds)
            (λ _. (kinds : List UnitKind) → IsKinds kinds → letters.now ≢ letters_of kinds) }
    {
        let mut of_units = [UnitKind::Map; MOST_UNITS];
        let units = letters.len();
        if units == 0 || units > MOST_UNITS {
            return Err(BadKinds);
        }
        for (unit, letter) in letters.iter().enumerate() {
            match UnitKind::of_letter(*letter) {
                Some(kind) => of_units[unit] = kind,
                None => return Err(BadKinds),
            }
        }
        let maps = count_maps(&of_units[..units]);
        Ok(Kinds {
            of_units,
            units,
            maps,
        })
    }

    /// So many maps, then a queue and a graph, which older images have.
    pub fn old(maps: u64) -> Kinds
        requires some { 1 ≤ maps }
        requires few { maps ≤ 8 }
        ensures { result ≡ old_kinds maps }
    {
        let queue = maps as usize;
        let units = queue + 2;
        let mut of_units = [UnitKind::Map; MOST_UNITS];
        of_units[queue] = UnitKind::Queue;
        of_units[queue + 1] = UnitKind::Graph;
        let maps = count_maps(&of_units[..units]);
        Kinds {
            of_units,
            units,
            maps,
        }
    }

    /// How many units there are.
    pub fn len(&self) -> u64
        ensures value { result ≡ length self.now }
        ensures kinds { IsKinds self.now }
    {
        self.units as u64
    }

    /// How many of the units are maps.
    pub fn maps(&self) -> u64
        ensures value { result ≡ maps_among self.now }
        ensures kinds { IsKinds self.now }
    {
        self.maps
    }

    /// The kinds in the order of the units.
    pub fn as_slice(&self) -> &[UnitKind]
        ensures value { result.now ≡ self.now }
        ensures kinds { IsKinds self.now }
    {
        &self.of_units[..self.units]
    }

    /// The kind of a unit, if there is one of this number.
    #[inline(always)]
    pub fn get(&self, unit: u64) -> Option<UnitKind>
        ensures { result ≡ slice_get self.now unit }
    {
        if unit < self.units as u64 {
            Some(self.of_units[unit as usize])
        } else {
            None
        }
    }
}

// How many of these kinds are maps.
fn count_maps(kinds: &[UnitKind]) -> u64
    ensures { result ≡ maps_among kinds.now }
{
    let mut maps = 0;
    for kind in kinds {
        if *kind == UnitKind::Map {
            maps += 1;
        }
    }
    maps
}
