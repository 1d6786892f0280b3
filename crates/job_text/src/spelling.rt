// Operations and replies, as they are spelled.
use crate::text_word::TextWord;
use mont_base::{Op, Reply, UnitKind};
use std::fmt;

/// An operation, as it is spelled.
#[derive(Clone, Copy)]
pub struct OpWords<'a>(pub &'a Op);

impl fmt::Display for OpWords<'_> {
    ghost use Rattle.std.specs.Prelude.{Some};
    ghost use Rattle.job_text.specs.Lines.{spaced};
    ghost use Rattle.job_text.specs.Spelling.{op_words};

    ghost output = { λ op. Some (spaced (op_words op.0.now)) };

    fn fmt<W: fmt::Write>(&self, f: &mut fmt::Formatter<W>) -> fmt::Result {
        match self.0 {
            Op::Put { key, value } => {
                let (key, value) = (TextWord(*key), TextWord(*value));
                write!(f, "put {key} {value}")
            }
            Op::Get { key } => write!(f, "get {}", TextWord(*key)),
            Op::Del { key } => write!(f, "del {}", TextWord(*key)),
            Op::Enq { unit, item } => write!(f, "enq {unit} {item}"),
            Op::Deq { unit } => write!(f, "deq {unit}"),
            Op::Len { unit } => write!(f, "len {unit}"),
            Op::AddV { unit, vertex, attr } => write!(f, "addv {unit} {vertex} {attr}"),
            Op::DelV { unit, vertex } => write!(f, "delv {unit} {vertex}"),
            Op::AddE {
                unit,
                from,
                to,
                attr,
            } => write!(f, "adde {unit} {from} {to} {attr}"),
            Op::DelE { unit, from, to } => write!(f, "dele {unit} {from} {to}"),
            Op::Vertex { unit, vertex } => write!(f, "vertex {unit} {vertex}"),
            Op::Degree { unit, vertex } => write!(f, "degree {unit} {vertex}"),
            Op::OPut { unit, key, value } => {
                let (key, value) = (TextWord(*key), TextWord(*value));
                write!(f, "oput {unit} {key} {value}")
            }
            Op::OGet { unit, key } => write!(f, "oget {unit} {}", TextWord(*key)),
            Op::ODel { unit, key } => write!(f, "odel {unit} {}", TextWord(*key)),
            Op::OFloor { unit, key } => write!(f, "ofloor {unit} {}", TextWord(*key)),
            Op::ORank { unit, key } => write!(f, "orank {unit} {}", TextWord(*key)),
            Op::ORange {
                unit,
                from,
                to,
                most,
            } => {
                let (from, to) = (TextWord(*from), TextWord(*to));
                write!(f, "orange {unit} {from} {to} {most}")
            }
        }
    }
}

/// A reply, as it is spelled. The pairs of a range stand after it.
#[derive(Clone, Copy)]
pub struct ReplyWords<'a>(pub &'a Reply);

impl fmt::Display for ReplyWords<'_> {
    ghost use Rattle.std.specs.Prelude.{Some};
    ghost use Rattle.job_text.specs.Lines.{spaced};
    ghost use Rattle.job_text.specs.Spelling.{reply_words};

    ghost output = { λ reply. Some (spaced (reply_words reply.0.now)) };

    fn fmt<W: fmt::Write>(&self, f: &mut fmt::Formatter<W>) -> fmt::Result {
        match self.0 {
            Reply::Nothing => write!(f, "none"),
            Reply::Was { value } => write!(f, "was {value}"),
            Reply::WasText { value } => write!(f, "was {}", TextWord(*value)),
            Reply::Count { number } => write!(f, "count {number}"),
            Reply::NoEnds => write!(f, "noends"),
            Reply::Key { key } => write!(f, "key {}", TextWord(*key)),
            Reply::Pairs { number } => write!(f, "pairs {number}"),
        }
    }
}

/// The kinds of units, one letter each.
#[derive(Clone, Copy)]
pub struct Letters<'a>(pub &'a [UnitKind]);

impl fmt::Display for Letters<'_> {
    ghost use Rattle.std.specs.Prelude.{Some};
    ghost use Rattle.mont_base.specs.Layout.{letters_of};

    ghost output = { λ letters. Some (letters_of letters.0.now) };

    fn fmt<W: fmt::Write>(&self, f: &mut fmt::Formatter<W>) -> fmt::Result {
        for kind in self.0 {
            let letter = char::from(kind.letter());
            write!(f, "{letter}")?;
        }
        Ok(())
    }
}
