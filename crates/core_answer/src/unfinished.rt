// Records that aren't written whole: their words, and whether a value is that of their next field.
ghost use Rattle.std.specs.Prelude.{◌≡◌, ◌↔◌, ◌<◌, ◌+◌, length, IsTrue};
ghost use Rattle.mont_base.specs.declared.constants.TheConstants.{FIELDS};
ghost use Rattle.mont_base.specs.Record.{IsLabel, is_version_of, number_of_kind};
ghost use Rattle.mont_laws.specs.SlotReadings.{held_words, IsRecordOf};
ghost use Rattle.core_steps.specs.Storing.{held_at, kind_shown, front_of, change_in, with_field};
ghost use Rattle.core_answer.specs.Unfinished.{GoesOn, ShowsNext, completion, first_label, least_version, kind_in};

use core_steps::Writing;
use mont_base::{BODY, Epoch, FIELDS, Held, Kind, LABEL, LAST, Label, Slot, Unit};

// What the unit has written so far into a slot.
pub(crate) fn change_in(writing: Option<Writing>, slot: Slot, epoch: Epoch) -> Held
    ensures { result ≡ change_in writing slot epoch }
{
    match writing {
        Some(writing) => writing.change,
        None => first_label(0, slot, Kind::New, epoch, 0, 0),
    }
}

// Nothing but a label.
fn first_label(
    unit: Unit,
    slot: Slot,
    kind: Kind,
    epoch: Epoch,
    identity: u64,
    version: u64,
) -> Held
    ensures { result ≡ first_label unit slot kind epoch identity version }
{
    Held {
        slot,
        label: Label {
            epoch,
            kind,
            unit,
            identity,
            version,
        },
        body: [0; BODY],
    }
}

// The record with another value in a field.
pub(crate) fn with_field(held: &Held, field: u64, value: u64) -> Held
    requires unit { held.now.label.unit < 256 }
    requires field { field < FIELDS }
    ensures { result ≡ with_field held.now field value }
{
    let mut words = words_of(held);
    words[field as usize] = value;
    held_at(held.slot, &words)
}

// Whether the value is that of the next field of a record of which these are the first ones.
pub(crate) fn goes_on(
    unit: Unit,
    slot: Slot,
    epoch: Epoch,
    change: &Held,
    stored: u64,
    value: u64,
) -> bool
    requires { stored + 1 < FIELDS }
    ensures { IsTrue result ↔ GoesOn unit slot epoch change.now stored value }
{
    let whole = completion(unit, slot, epoch, change, stored, value);
    shows_next(unit, change, stored, value, &whole)
}

// Whether the change shows the first fields of a record of the unit, and the value is the next one.
fn shows_next(unit: Unit, change: &Held, stored: u64, value: u64, whole: &Held) -> bool
    requires { stored + 1 < FIELDS }
    ensures { IsTrue result ↔ ShowsNext unit change.now stored value whole.now }
{
    is_record_of(unit, whole)
        && is_same(change, &front_of(whole, stored))
        && words_of(whole)[stored as usize + 1] == value
}

// The record that has what is shown, the value after it, and else the least words.
fn completion(unit: Unit, slot: Slot, epoch: Epoch, change: &Held, stored: u64, value: u64) -> Held
    requires { stored + 1 < FIELDS }
    ensures { result ≡ completion unit slot epoch change.now stored value }
{
    let Label {
        kind,
        identity,
        version,
        ..
    } = change.label;
    match stored {
        0 => {
            let kind = kind_in(value);
            first_label(unit, slot, kind, epoch, 1, least_version(kind))
        }
        1 => first_label(unit, slot, kind, epoch, value, least_version(kind)),
        2 => first_label(unit, slot, kind, epoch, identity, value),
        _ => {
            let mut whole = first_label(unit, slot, kind, epoch, identity, version);
            whole.body = change.body;
            whole.body[stored as usize - 3] = value;
            whole
        }
    }
}

fn kind_in(word: u64) -> Kind
    ensures { result ≡ kind_in word }
{
    match word / 256 {
        2 => Kind::Copy,
        3 => Kind::Delete,
        _ => Kind::New,
    }
}

fn least_version(kind: Kind) -> u64
    ensures { result ≡ least_version kind }
{
    match kind {
        Kind::New => 1,
        Kind::Copy | Kind::Delete => 2,
    }
}

// Whether a slot of the unit may hold the record.
fn is_record_of(unit: Unit, held: &Held) -> bool
    ensures { IsTrue result ↔ IsRecordOf unit held.now }
{
    is_label(&held.label) && held.label.unit == unit
}

fn is_label(label: &Label) -> bool
    ensures { IsTrue result ↔ IsLabel label.now }
{
    label.unit < 256
        && (1..=LAST).contains(&label.epoch)
        && (1..=LAST).contains(&label.identity)
        && is_version_of(label.kind, label.version)
}

fn is_version_of(kind: Kind, version: u64) -> bool
    ensures { result ≡ is_version_of kind version }
{
    match kind {
        Kind::New => version == 1,
        Kind::Copy | Kind::Delete => (2..=LAST).contains(&version),
    }
}

// The epoch and so many fields of a record, and 0 for the others.
fn front_of(held: &Held, stored: u64) -> Held
    requires unit { held.now.label.unit < 256 }
    requires stored { stored + 1 < FIELDS }
    ensures { result ≡ front_of held.now stored }
{
    let mut words = words_of(held);
    words[stored as usize + 1..].fill(0);
    held_at(held.slot, &words)
}

fn words_of(held: &Held) -> [u64; FIELDS]
    requires { held.now.label.unit < 256 }
    ensures { result ≡ held_words held.now }
{
    let mut words = [0; FIELDS];
    words[0] = held.label.epoch;
    words[1] = 256 * number_of_kind(held.label.kind) + held.label.unit;
    words[2] = held.label.identity;
    words[3] = held.label.version;
    words[LABEL..].copy_from_slice(&held.body);
    words
}

fn number_of_kind(kind: Kind) -> u64
    ensures { result ≡ number_of_kind kind }
{
    match kind {
        Kind::New => 1,
        Kind::Copy => 2,
        Kind::Delete => 3,
    }
}

// The record that the words would be; where they show no kind, it is taken to be New.
fn held_at(slot: Slot, words: &[u64; FIELDS]) -> Held
    ensures { result ≡ held_at slot words.now }
{
    let [epoch, word, identity, version, ..] = *words;
    let mut body = [0; BODY];
    body.copy_from_slice(&words[LABEL..]);
    Held {
        slot,
        label: Label {
            epoch,
            kind: kind_in(word),
            unit: word % 256,
            identity,
            version,
        },
        body,
    }
}

fn is_same(a: &Held, b: &Held) -> bool
    ensures { IsTrue result ↔ (a.now ≡ b.now) }
{
    a == b
}
