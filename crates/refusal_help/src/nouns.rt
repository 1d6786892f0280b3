// What places want, as sentences name it.
use crate::wanted::{Figure, Fixed, Wanted};
use mont_base::UnitKind;

/// What a place wants.
pub fn noun(wanted: Wanted) -> &'static str {
    match wanted {
        Wanted::Word(fixed) => fixed_noun(fixed),
        Wanted::Number(figure) => figure_noun(figure),
        Wanted::UnitOf(_) => "the unit",
        Wanted::Key => "the key",
        Wanted::Value => "the value",
        Wanted::Kinds => "the kinds",
        Wanted::Mask => "the mask",
        Wanted::Deed | Wanted::Operation => "the operation",
        Wanted::Event => "the event",
        Wanted::Part => "unit or caller",
        Wanted::Reply => "the reply",
        Wanted::Form => "the form",
        Wanted::File => "the file",
    }
}

fn fixed_noun(fixed: Fixed) -> &'static str {
    match fixed {
        Fixed::JobTitle => "montage-job",
        Fixed::ScheduleTitle => "montage-schedule",
        Fixed::JobVersion => "3",
        Fixed::ScheduleVersion => "1",
        Fixed::Stop => "stop",
        Fixed::Equals => "=",
    }
}

fn figure_noun(figure: Figure) -> &'static str {
    match figure {
        Figure::Slots => "the number of slots",
        Figure::Callers => "the number of callers",
        Figure::Attempts => "the number of attempts",
        Figure::Steps => "the number of steps",
        Figure::Gate => "the gate",
        Figure::Caller => "the caller",
        Figure::Unit => "the unit",
        Figure::Slot => "the slot",
        Figure::Most | Figure::Pairs => "the number of pairs",
        Figure::Workers => "the number of workers",
        Figure::Any => "the number",
    }
}

/// A unit of a kind.
pub fn kind_noun(kind: UnitKind) -> &'static str {
    match kind {
        UnitKind::Map => "a map",
        UnitKind::Queue => "a queue",
        UnitKind::Graph => "a graph",
        UnitKind::Ordered => "an ordered map",
    }
}

/// Which words a place knows, where it knows a few.
pub fn known_words(wanted: Wanted) -> &'static str {
    match wanted {
        Wanted::Deed => {
            "put get del enq deq len addv delv adde dele vertex degree \
             oput oget odel ofloor orank orange tick sync"
        }
        Wanted::Operation => {
            "put get del enq deq len addv delv adde dele vertex degree \
             oput oget odel ofloor orank orange"
        }
        Wanted::Event => {
            "look tell confirm store leave read withdraw freeze durable close \
             persistclose check loadword persistword setclock persistclock"
        }
        Wanted::Part => "unit caller",
        Wanted::Reply => "none was count noends key pairs",
        Wanted::Form => "run crash resume recover check replay big bank --help --version",
        _ => "",
    }
}
