// What a refusal says to a reader, in one line.
use crate::open_refusal::OpenRefusal;
use crate::store_refusal::StoreRefusal;
use advance::AdvanceRefusal;
use caller::SyncRefusal;
use mont_base::{CallRefusal, Which};
use shard_map::ShiftRefusal;
use std::fmt;

impl fmt::Display for StoreRefusal {
    fn fmt<W: fmt::Write>(&self, f: &mut fmt::Formatter<W>) -> fmt::Result {
        match self {
            StoreRefusal::Kinds => write!(f, "the letters spell no kinds of 1 to 16 units"),
            StoreRefusal::Slots => write!(f, "a unit has 8 to 4096 slots"),
            StoreRefusal::Text => write!(f, "a text has at most 24 bytes"),
            StoreRefusal::Image { why } => write!(f, "the image isn't recovered: {why}"),
            StoreRefusal::Cut => write!(f, "cut"),
            StoreRefusal::Open { why } => tell_open(f, *why),
            StoreRefusal::Call { why } => tell_call(f, *why),
            StoreRefusal::Shift { why } => tell_shift(f, *why),
            StoreRefusal::Tick { why } => tell_tick(f, *why),
            StoreRefusal::Sync { why } => tell_sync(f, *why),
            StoreRefusal::Memory => write!(f, "out of memory"),
        }
    }
}

// Why it isn't opened.
fn tell_open<W: fmt::Write>(f: &mut fmt::Formatter<W>, why: OpenRefusal) -> fmt::Result {
    match why {
        OpenRefusal::Index { unit, len: None } => write!(f, "map unit {unit} has no index"),
        OpenRefusal::Index {
            unit,
            len: Some(keys),
        } => { write!(f, "the index of map unit {unit} has {keys} keys") }
        OpenRefusal::Memory => write!(f, "out of memory"),
    }
}

// Why a call isn't answered.
fn tell_call<W: fmt::Write>(f: &mut fmt::Formatter<W>, why: CallRefusal) -> fmt::Result {
    match why {
        CallRefusal::Halted { unit, by } => write!(f, "caller {by} was cut in unit {unit}"),
        CallRefusal::CountEnd { which } => write!(f, "{} are at their end", count_name(which)),
        CallRefusal::Memory => write!(f, "out of memory"),
        CallRefusal::Full { need, free, clock } => {
            write!(
                f,
                "{need} slots are needed, and {free} are free at clock {clock}"
            )
        }
        CallRefusal::Cut { unit } => write!(f, "cut in unit {unit}"),
    }
}

// Why a shift isn't answered.
fn tell_shift<W: fmt::Write>(f: &mut fmt::Formatter<W>, why: ShiftRefusal) -> fmt::Result {
    match why {
        ShiftRefusal::SameUnit { unit } => write!(f, "unit {unit} keeps both keys"),
        ShiftRefusal::Halted { unit, by } => write!(f, "caller {by} was cut in unit {unit}"),
        ShiftRefusal::Missing { .. } => write!(f, "no number stands under the key"),
        ShiftRefusal::Short { have } => write!(f, "there is only {have}"),
        ShiftRefusal::Over { have } => write!(f, "with the {have} that is there it is too much"),
        ShiftRefusal::CountEnd { which } => write!(f, "{} are at their end", count_name(which)),
        ShiftRefusal::Memory => write!(f, "out of memory"),
        ShiftRefusal::Full {
            unit,
            need,
            free,
            clock,
        } => {
            write!(
                f,
                "unit {unit} needs {need} slots, and {free} are free at clock {clock}"
            )
        }
        ShiftRefusal::Cut { unit, .. } => write!(f, "cut in unit {unit}"),
    }
}

// Why the clock isn't advanced.
fn tell_tick<W: fmt::Write>(f: &mut fmt::Formatter<W>, why: AdvanceRefusal) -> fmt::Result {
    match why {
        AdvanceRefusal::NotYet { unit, epoch, .. } => {
            write!(f, "unit {unit} is within epoch {epoch} still")
        }
        AdvanceRefusal::Cut => write!(f, "cut"),
        AdvanceRefusal::ClockEnd => write!(f, "the clock is at its end"),
    }
}

// Why a sync isn't answered.
fn tell_sync<W: fmt::Write>(f: &mut fmt::Formatter<W>, why: SyncRefusal) -> fmt::Result {
    match why {
        SyncRefusal::Stuck { unit, epoch } => {
            write!(f, "unit {unit} is within epoch {epoch} for good")
        }
        SyncRefusal::Cut => write!(f, "cut"),
        SyncRefusal::ClockEnd => write!(f, "the clock is at its end"),
    }
}

// What is counted.
fn count_name(which: Which) -> &'static str {
    match which {
        Which::Call => "calls",
        Which::Place => "places",
        Which::Identity => "identities",
        Which::Version => "versions",
        Which::Serial => "serials",
    }
}
