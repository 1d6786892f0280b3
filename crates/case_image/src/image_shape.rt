// What the first line of a part `image` tells: the version of the text, the kinds of the units, the
// slots of each and the clock.
ghost use Rattle.std.specs.Prelude.{◌≤◌};
ghost use Rattle.mont_base.specs.declared.constants.TheConstants.{FIELDS};

use crate::slot_line::number_in;
use mont_base::{FIELDS, Kinds, Layout};
use mont_image::OLD_FIELDS;
use std::alloc::{AllocError, Global};

// The bytes `MONTAGE` and a line feed.
const MAGIC: u64 = 0x0a45_4741_544e_4f4d;

/// What the line tells. The text has the version as it is told, whatever that is.
#[derive(Clone, Copy)]
pub struct ImageShape {
    version: u64,
    pub layout: Layout,
    clock: u64,
}

impl ImageShape {
    /// What the words of the line tell.
    pub fn of_words(words: &[&str]) -> Option<ImageShape> {
        let [version, letters, slots, clock] = words else {
            return None;
        };
        let kinds = Kinds::of_letters(letters.as_bytes()).ok()?;
        Some(ImageShape {
            version: number_in(version)?,
            layout: Layout::new(kinds, number_in(slots)?).ok()?,
            clock: number_in(clock)?,
        })
    }

    /// Whether the text is of the first version.
    pub fn is_old(&self) -> bool {
        self.version == 1
    }

    /// How many words a slot has.
    pub fn fields(&self) -> usize
        ensures { result ≤ FIELDS }
    {
        if self.is_old() { OLD_FIELDS } else { FIELDS }
    }

    /// The words of the text in front of those of the slots.
    pub fn front(&self, alloc: Global) -> Result<Vec<u64>, AllocError> {
        let kinds = self.layout.kinds();
        let units = match self.version {
            1 | 2 => kinds.len().saturating_sub(2),
            _ => kinds.len(),
        };
        let mut words = Vec::new(alloc);
        let (slots, clock) = (self.layout.slots(), self.clock);
        words.extend_from_slice(&[MAGIC, self.version, units, slots, clock])?;
        if self.version > 2 {
            for kind in kinds.as_slice() {
                words.push(kind.code())?;
            }
        }
        Ok(words)
    }

    /// The words of the slots, which are all closed.
    pub fn slots(&self, alloc: Global) -> Result<Vec<u64>, AllocError> {
        let mut words = Vec::new(alloc);
        for _ in 0..self.layout.total() {
            words.extend_from_slice(&[0; FIELDS][..self.fields()])?;
        }
        Ok(words)
    }
}
