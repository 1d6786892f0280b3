// The words of a record, whether or not it is one that recovery accepts.
use mont_base::{BODY, FIELDS, Kind, LABEL, Label};

/// The words of a slot with this label and this body.
pub fn record_words(label: &Label, body: &[u64; BODY]) -> [u64; FIELDS] {
    let kind = match label.kind {
        Kind::New => 256,
        Kind::Copy => 512,
        Kind::Delete => 768,
    };
    let mut words = [0; FIELDS];
    words[0] = label.epoch;
    words[1] = label.unit.saturating_add(kind);
    words[2] = label.identity;
    words[3] = label.version;
    words[LABEL..].copy_from_slice(body);
    words
}
