// How a label and a body are written.
ghost use Rattle.std.specs.Prelude.{◌≡◌, ◌+◌, ◌*◌, ◌<◌};
ghost use Rattle.mont_base.specs.Record.{IsLabel, slot_words, number_of_kind};

use mont_base::{BODY, FIELDS, Kind, LABEL, Label};

/// The words of a slot that holds this label and this body.
pub fn write_words(label: &Label, body: [u64; BODY]) -> [u64; FIELDS]
    requires { IsLabel label.now }
    ensures { result ≡ slot_words label.now body }
{
    let mut words = [0; FIELDS];
    words[0] = label.epoch;
    words[1] = kind_word(label);
    words[2] = label.identity;
    words[3] = label.version;
    words[LABEL..].copy_from_slice(&body);
    words
}

/// The word of a slot that says the kind and the unit of its record.
pub fn kind_word(label: &Label) -> u64
    requires { label.now.unit < 256 }
    ensures { result ≡ 256 * number_of_kind label.now.kind + label.now.unit }
{
    256 * number_of_kind(label.kind) + label.unit
}

// The number that stands for a kind.
fn number_of_kind(kind: Kind) -> u64
    ensures { result ≡ number_of_kind kind }
{
    match kind {
        Kind::New => 1,
        Kind::Copy => 2,
        Kind::Delete => 3,
    }
}
