// How what stands in a slot is read.
ghost use Rattle.std.specs.Prelude.{◌≡◌, ◌==◌, ◌&&◌, ◌≤◌, ◌↔◌, ◌/◌, ◌%◌, ℕ, List, slice_index, nat_le, IfOk, IfSome, Ok, Err, Some, None, ok_or, if◌then◌else◌};
ghost use Rattle.mont_base.specs.Record.{IsLabel, IsBody, slot_words, kind_of_number, reading, is_version_of, body_at};
ghost use Rattle.mont_base.specs.declared.record.Label.{Label};

use mont_base::{BODY, FIELDS, Kind, LABEL, LAST, Label, SlotFault, Unit};

/// Reads a slot of a unit: nothing where the slot is closed, else its label and its body, or the
/// first fault of its words.
pub fn read_words(
    unit: Unit,
    words: &[u64; FIELDS],
) -> Result<Option<(Label, [u64; BODY])>, SlotFault>
    requires { slice_index words.now 0 ≤ LAST }
    ensures exact { result ≡ reading unit words.now }
    ensures closed { (result ≡ Ok None) ↔ (slice_index words.now 0 ≡ 0) }
    ensures found { IfOk result (λ r. IfSome r (λ p.
        IsLabel p.0 × (p.0.unit ≡ unit) × (words.now ≡ slot_words p.0 p.1))) }
    ensures only { (l : Label) (b : List ℕ) → IsLabel l → l.unit ≡ unit → IsBody b
        → words.now ≡ slot_words l b → result ≡ Ok (Some (l, b)) }
{
    let [epoch, word, identity, version, ..] = *words;
    if epoch == 0 {
        return Ok(None);
    }
    let kind = kind_in(word)?;
    check_unit(unit, word)?;
    check_identity(identity)?;
    check_version(kind, version)?;
    let label = Label {
        epoch,
        kind,
        unit,
        identity,
        version,
    };
    Ok(Some((label, body_of(words))))
}

// The words of a slot after its label.
fn body_of(words: &[u64; FIELDS]) -> [u64; BODY]
    ensures { result ≡ body_at words.now }
{
    let mut body = [0; BODY];
    body.copy_from_slice(&words[LABEL..]);
    body
}

// The kind that the second word of a slot names.
fn kind_in(word: u64) -> Result<Kind, SlotFault>
    ensures { result ≡ ok_or (kind_of_number (word / 256)) (SlotFault.Kind word) }
{
    match word / 256 {
        1 => Ok(Kind::New),
        2 => Ok(Kind::Copy),
        3 => Ok(Kind::Delete),
        _ => Err(SlotFault::Kind { word }),
    }
}

// Refuses the second word of another unit's slot.
fn check_unit(unit: Unit, word: u64) -> Result<(), SlotFault>
    ensures { result ≡ (if word % 256 == unit then Ok tt else Err (SlotFault.Unit word)) }
{
    if word % 256 == unit {
        Ok(())
    } else {
        Err(SlotFault::Unit { word })
    }
}

// Refuses what is no identity.
fn check_identity(word: u64) -> Result<(), SlotFault>
    ensures { result ≡ (if nat_le 1 word && nat_le word LAST then Ok tt
        else Err (SlotFault.Identity word)) }
{
    if (1..=LAST).contains(&word) {
        Ok(())
    } else {
        Err(SlotFault::Identity { word })
    }
}

// Refuses what is no version of a payload of this kind.
fn check_version(kind: Kind, word: u64) -> Result<(), SlotFault>
    ensures { result ≡ (if is_version_of kind word then Ok tt else Err (SlotFault.Version word)) }
{
    let valid = match kind {
        Kind::New => word == 1,
        Kind::Copy | Kind::Delete => (2..=LAST).contains(&word),
    };
    if valid {
        Ok(())
    } else {
        Err(SlotFault::Version { word })
    }
}
