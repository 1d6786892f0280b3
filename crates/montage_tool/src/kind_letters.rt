// The letters of the kinds of units.
use mont_base::UnitKind;
use std::fmt;

/// The kinds of units, one letter each.
#[derive(Clone, Copy)]
pub struct KindLetters<'a>(pub &'a [UnitKind]);

impl fmt::Display for KindLetters<'_> {
    ghost use Rattle.std.specs.Prelude.{Some};
    ghost use Rattle.mont_base.specs.Layout.{letters_of};

    ghost output = { λ letters. Some (letters_of letters.0.now) };

    fn fmt<W: fmt::Write>(&self, f: &mut fmt::Formatter<W>) -> fmt::Result {
        for kind in self.0 {
            let letter = char::from(kind.letter());
            write!(f, "{letter}")?;
        }
        Ok(())
    }
}
