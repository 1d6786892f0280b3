// What was asked and answered, as labels spell it.
ghost use Rattle.std.specs.Prelude.{◌≡◌};
ghost use Rattle.job_text.specs.Spelling.{is_bare};

use mont_base::{Op, Reply, Text};
use std::fmt;

// What the empty text is spelled by, and what another's first byte is not.
const MARK: u8 = b'%';

/// A key or a value, spelled as in reports.
#[derive(Clone, Copy)]
pub struct Word(pub Text);

impl fmt::Display for Word {
    ghost use Rattle.std.specs.Prelude.{Some};
    ghost use Rattle.job_text.specs.Spelling.{text_word};

    ghost output = { λ word. Some (text_word word.0) };

    fn fmt<W: fmt::Write>(&self, f: &mut fmt::Formatter<W>) -> fmt::Result {
        let text = self.0;
        if text.is_empty() {
            return write!(f, "%");
        }
        for at in 0..text.len() {
            let byte = ByteWord(text.byte(at));
            write!(f, "{byte}")?;
        }
        Ok(())
    }
}

// A byte of a text.
#[derive(Clone, Copy)]
struct ByteWord(u8);

impl fmt::Display for ByteWord {
    ghost use Rattle.std.specs.Prelude.{Some};
    ghost use Rattle.job_text.specs.Spelling.{byte_word};

    ghost output = { λ word. Some (byte_word word.0) };

    fn fmt<W: fmt::Write>(&self, f: &mut fmt::Formatter<W>) -> fmt::Result {
        let byte = self.0;
        if is_bare(byte) {
            let own = char::from(byte);
            write!(f, "{own}")
        } else {
            write!(f, "%{byte:02x}")
        }
    }
}

// A byte that stands for itself.
fn is_bare(byte: u8) -> bool
    ensures { result ≡ is_bare byte }
{
    33 <= byte && byte <= 126 && byte != MARK
}

/// An operation without its unit, which the lane tells.
#[derive(Clone, Copy)]
pub struct Asked<'a>(pub &'a Op);

impl fmt::Display for Asked<'_> {
    ghost use Rattle.std.specs.Prelude.{Some};
    ghost use Rattle.report_drawing.specs.Labels.{asked_label};

    ghost output = { λ asked. Some (asked_label asked.0.now) };

    fn fmt<W: fmt::Write>(&self, f: &mut fmt::Formatter<W>) -> fmt::Result {
        match self.0 {
            Op::Put { key, value } => write!(f, "put {} {}", Word(*key), Word(*value)),
            Op::Get { key } => write!(f, "get {}", Word(*key)),
            Op::Del { key } => write!(f, "del {}", Word(*key)),
            Op::Enq { item, .. } => write!(f, "enq {item}"),
            Op::Deq { .. } => write!(f, "deq"),
            Op::Len { .. } => write!(f, "len"),
            Op::AddV { vertex, attr, .. } => write!(f, "addv {vertex} {attr}"),
            Op::DelV { vertex, .. } => write!(f, "delv {vertex}"),
            Op::AddE { from, to, attr, .. } => write!(f, "adde {from} {to} {attr}"),
            Op::DelE { from, to, .. } => write!(f, "dele {from} {to}"),
            Op::Vertex { vertex, .. } => write!(f, "vertex {vertex}"),
            Op::Degree { vertex, .. } => write!(f, "degree {vertex}"),
            Op::OPut { key, value, .. } => write!(f, "oput {} {}", Word(*key), Word(*value)),
            Op::OGet { key, .. } => write!(f, "oget {}", Word(*key)),
            Op::ODel { key, .. } => write!(f, "odel {}", Word(*key)),
            Op::OFloor { key, .. } => write!(f, "ofloor {}", Word(*key)),
            Op::ORank { key, .. } => write!(f, "orank {}", Word(*key)),
            Op::ORange { from, to, most, .. } => {
                let (from, to) = (Word(*from), Word(*to));
                write!(f, "orange {from} {to} {most}")
            }
        }
    }
}

/// A reply with an arrow before it, where it says something.
#[derive(Clone, Copy)]
pub struct Answered<'a>(pub &'a Reply);

impl fmt::Display for Answered<'_> {
    ghost use Rattle.std.specs.Prelude.{Some};
    ghost use Rattle.report_drawing.specs.Labels.{answered_label};

    ghost output = { λ answered. Some (answered_label answered.0.now) };

    fn fmt<W: fmt::Write>(&self, f: &mut fmt::Formatter<W>) -> fmt::Result {
        match self.0 {
            Reply::Nothing => Ok(()),
            Reply::Was { value } => write!(f, " -> {value}"),
            Reply::WasText { value } => write!(f, " -> {}", Word(*value)),
            Reply::Count { number } => write!(f, " -> {number}"),
            Reply::NoEnds => write!(f, " -> no ends"),
            Reply::Key { key } => write!(f, " -> {}", Word(*key)),
            Reply::Pairs { number } => write!(f, " -> {number} pairs"),
        }
    }
}
