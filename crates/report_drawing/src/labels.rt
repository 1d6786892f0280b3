// The labels of a picture: who asked what and was answered what, and what came of a line.
ghost use Rattle.std.specs.Prelude.{◌≡◌, ◌++◌, codes, decimal, string_bytes, IfOk};
ghost use Rattle.report_drawing.specs.Labels.{caller_letter, kind_word, entry_label, outcome_label, is_carried_out};

use crate::label_spelling::{Answered, Asked};
use job_text::Outcome;
use mont_base::{Entry, UnitKind};
use std::alloc::{AllocError, Global};

/// The letter of a caller.
pub fn caller_letter(caller: u64) -> char
    ensures { result ≡ caller_letter caller }
{
    if caller < 26 {
        char::from(b'a' + caller as u8)
    } else {
        '?'
    }
}

/// The word for a kind of unit.
pub fn kind_word(kind: UnitKind) -> &'static str
    ensures { result.now ≡ kind_word kind }
{
    match kind {
        UnitKind::Map => "map",
        UnitKind::Queue => "queue",
        UnitKind::Graph => "graph",
        UnitKind::Ordered => "ordered",
    }
}

/// Who asked, what was asked, and what was answered where that says something.
pub fn entry_label(alloc: Global, entry: &Entry) -> Result<String, AllocError>
    ensures { IfOk result (λ label. string_bytes label ≡ entry_label entry.now) }
{
    let letter = caller_letter(entry.caller);
    let (asked, answered) = (Asked(&entry.op), Answered(&entry.reply));
    format!(in alloc; "{letter}: {asked}{answered}")
}

/// What came of a line, with a mark where it wasn't carried out.
pub fn outcome_label(alloc: Global, outcome: &Outcome) -> Result<String, AllocError>
    ensures { IfOk result (λ label. string_bytes label ≡ outcome_label outcome.now) }
{
    let mark = if is_carried_out(outcome) { "" } else { "! " };
    format!(in alloc; "{mark}{outcome}")
}

// Whether the line was carried out.
fn is_carried_out(outcome: &Outcome) -> bool
    ensures { result ≡ is_carried_out outcome.now }
{
    matches!(
        outcome,
        Outcome::At { .. } | Outcome::Synced { .. } | Outcome::Ticked { .. }
    )
}
