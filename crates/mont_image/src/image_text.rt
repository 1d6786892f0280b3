// The text of an image: its words, each as eight bytes with the lowest first.
//
//     word 0   1         2               3                 4       5 and on
//     magic    version   units or maps   slots of a unit   clock   codes of kinds, words of slots
ghost use Rattle.std.specs.Prelude.{◌≡◌};
ghost use Rattle.mont_image.specs.ImageHeader.{IsHeader};
ghost use Rattle.mont_image.specs.ImageText.{number_of_version, version_of_number, front_count, is_old};
ghost use Rattle.mont_image.specs.StoredImage.{fields_of};

use mont_base::{Epoch, FIELDS};

/// The bytes of a word.
pub(crate) const WORD: usize = 8;

/// The first word: the bytes `MONTAGE` and a line feed.
pub(crate) const MAGIC: u64 = 0x0a45_4741_544e_4f4d;

/// How many words stand before the codes of the kinds.
pub(crate) const HEADER: usize = 5;

/// The words of a slot of the first version.
pub const OLD_FIELDS: usize = 8;

/// Images of the first two versions have at most so many maps.
pub const MOST_OLD_MAPS: u64 = 8;

/// No text of an image has more bytes: the text of sixteen units of 4096 slots has so many.
pub const IMAGE_BYTES: usize = 6_291_624;

const _: () = prove!(WORD == 8);

const _: () = prove!(MAGIC == 740_076_059_685_179_213);

const _: () = prove!(HEADER == 5);

const _: () = prove!(OLD_FIELDS == 8);

const _: () = prove!(MOST_OLD_MAPS == 8);

const _: () = prove!(IMAGE_BYTES == 6_291_624);

/// The versions of an image's text.
#[derive(Clone, Copy, Debug, PartialEq, Eq)]
pub enum Version {
    /// Slots of eight words; maps, a queue and a graph.
    First,
    /// The same units, and slots of twelve words.
    Second,
    /// Units of any kinds, which the text tells.
    Third,
}

/// What the first five words tell.
#[derive(Clone, Copy, Debug, PartialEq, Eq)]
pub(crate) struct Header {
    pub(crate) version: Version,
    /// The units, or in older versions the maps among them.
    pub(crate) units: u64,
    /// The slots of each unit.
    pub(crate) slots: u64,
    pub(crate) clock: Epoch,
}

impl Version {
    /// The number that tells the version.
    pub(crate) fn number(self) -> u64
        ensures { result ≡ number_of_version self }
    {
        match self {
            Version::First => 1,
            Version::Second => 2,
            Version::Third => 3,
        }
    }

    /// The version that a number tells.
    pub(crate) fn of_number(number: u64) -> Option<Version>
        ensures { result ≡ version_of_number number }
    {
        match number {
            1 => Some(Version::First),
            2 => Some(Version::Second),
            3 => Some(Version::Third),
            _ => None,
        }
    }

    /// Whether its slots have eight words.
    pub(crate) fn is_old(self) -> bool
        ensures { result ≡ is_old self }
    {
        self == Version::First
    }
}

impl Header {
    // How many words stand before those of the slots.
    pub(crate) fn front(&self) -> usize
        requires { IsHeader self.now }
        ensures { result ≡ front_count self.now }
    {
        match self.version {
            Version::First | Version::Second => HEADER,
            Version::Third => HEADER + self.units as usize,
        }
    }

    // How many words a slot has.
    pub(crate) fn fields(&self) -> usize
        ensures { result ≡ fields_of (is_old self.now.version) }
    {
        match self.version {
            Version::First => OLD_FIELDS,
            Version::Second | Version::Third => FIELDS,
        }
    }
}
