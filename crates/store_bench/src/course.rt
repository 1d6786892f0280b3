// What a caller is to do.
use crate::timed_plan::Timed;
use mont_base::{Op, Text};
use std::alloc::{AllocError, Global};

// How many items come and go in a round.
const ITEMS: u64 = 16;

// How many operations a round has at least, where nothing is made between two of them.
const LONG: u64 = 256;

// Operations that come first, and those of a round, of which the ones in the middle are timed.
#[derive(Drop)]
pub(crate) struct Course {
    pub(crate) first: Vec<Op>,
    pub(crate) before: Vec<Op>,
    pub(crate) timed: Vec<Op>,
    pub(crate) after: Vec<Op>,
}

// What an operation does.
#[derive(Clone, Copy)]
pub(crate) enum Deed {
    Put,
    Get,
    Del,
    Enq,
    Deq,
    AddVertex,
    AddEdge,
    DelEdge,
    Degree,
}

// The turns of a caller through the units: through its own one, or through all.
#[derive(Clone, Copy)]
pub(crate) struct Turns {
    pub(crate) caller: u64,
    pub(crate) units: u64,
    pub(crate) own: bool,
}

// The turns of an only caller on an only unit.
const ALONE: Turns = Turns {
    caller: 0,
    units: 1,
    own: true,
};

impl Turns {
    // How many turns it takes to do so many things in each of its units.
    fn many(&self, things: u64) -> u64 {
        if self.own {
            things
        } else {
            things.saturating_mul(self.units)
        }
    }

    // The operation of a turn.
    fn op(&self, deed: Deed, turn: u64) -> Op {
        let units = self.units.max(1);
        let (unit, number) = if self.own {
            (self.caller, turn)
        } else {
            (turn % units, turn / units)
        };
        let key = number.saturating_mul(units).saturating_add(unit);
        op_at(deed, unit, number, key)
    }

    // Adds the operations of these steps, each over and over until there are so many at least.
    fn push_steps(
        &self,
        ops: &mut Vec<Op>,
        steps: &[Step],
        size: u64,
        least: u64,
    ) -> Result<(), AllocError> {
        for (deed, things) in steps {
            let many = match things {
                Things::Size => size,
                Things::Vertices => size.saturating_add(1),
                Things::Items => ITEMS,
            };
            self.push_ops(ops, *deed, many, least)?;
        }
        Ok(())
    }

    // Adds the operations that do this with so many things in each unit, over and over until there
    // are so many at least.
    fn push_ops(
        &self,
        ops: &mut Vec<Op>,
        deed: Deed,
        things: u64,
        least: u64,
    ) -> Result<(), AllocError> {
        let once = self.many(things);
        for _time in 0..least.div_ceil(once.max(1)) {
            for turn in 0..once {
                ops.push(self.op(deed, turn))?;
            }
        }
        Ok(())
    }
}

// The operation on the thing of this number in a unit, whose key is this one.
fn op_at(deed: Deed, unit: u64, number: u64, key: u64) -> Op {
    let next = number.saturating_add(1);
    match deed {
        Deed::Put => Op::Put {
            key: Text::of_number(key),
            value: Text::of_number(next),
        },
        Deed::Get => Op::Get {
            key: Text::of_number(key),
        },
        Deed::Del => Op::Del {
            key: Text::of_number(key),
        },
        Deed::Enq => Op::Enq { unit, item: number },
        Deed::Deq => Op::Deq { unit },
        Deed::AddVertex => Op::AddV {
            unit,
            vertex: number,
            attr: key,
        },
        Deed::AddEdge => Op::AddE {
            unit,
            from: number,
            to: next,
            attr: key,
        },
        Deed::DelEdge => Op::DelE {
            unit,
            from: number,
            to: next,
        },
        Deed::Degree => Op::Degree {
            unit,
            vertex: number,
        },
    }
}

// So many of a thing in each unit.
#[derive(Clone, Copy)]
enum Things {
    // As many as the plan's size.
    Size,
    // One more: the vertices of a path of so many edges.
    Vertices,
    // Those that come and go in a round.
    Items,
}

// Something that is done with so many things.
type Step = (Deed, Things);

// The steps of a course, and whether its timed one is gone through until the round is long.
struct Shape {
    first: &'static [Step],
    before: &'static [Step],
    timed: &'static [Step],
    after: &'static [Step],
    long: bool,
}

// Puts of pairs that are there.
static PUTS: Shape = Shape {
    first: &[(Deed::Put, Things::Size)],
    before: &[],
    timed: &[(Deed::Put, Things::Size)],
    after: &[],
    long: true,
};

// Look-ups of pairs that are there.
static GETS: Shape = Shape {
    first: &[(Deed::Put, Things::Size)],
    before: &[],
    timed: &[(Deed::Get, Things::Size)],
    after: &[],
    long: true,
};

// Pairs are put, and their removal is timed.
static REMOVALS: Shape = Shape {
    first: &[],
    before: &[(Deed::Put, Things::Size)],
    timed: &[(Deed::Del, Things::Size)],
    after: &[],
    long: false,
};

// Items are added after those that stay, and then as many are taken.
static ADDITIONS: Shape = Shape {
    first: &[(Deed::Enq, Things::Size)],
    before: &[],
    timed: &[(Deed::Enq, Things::Items)],
    after: &[(Deed::Deq, Things::Items)],
    long: false,
};

// Items are taken, after as many that were added.
static TAKINGS: Shape = Shape {
    first: &[(Deed::Enq, Things::Size)],
    before: &[(Deed::Enq, Things::Items)],
    timed: &[(Deed::Deq, Things::Items)],
    after: &[],
    long: false,
};

// The edges of a path are added, and then removed.
static NEW_EDGES: Shape = Shape {
    first: &[(Deed::AddVertex, Things::Vertices)],
    before: &[],
    timed: &[(Deed::AddEdge, Things::Size)],
    after: &[(Deed::DelEdge, Things::Size)],
    long: false,
};

// The edges at the vertices of a path are counted.
static COUNTS: Shape = Shape {
    first: &[
        (Deed::AddVertex, Things::Vertices),
        (Deed::AddEdge, Things::Size),
    ],
    before: &[],
    timed: &[(Deed::Degree, Things::Size)],
    after: &[],
    long: true,
};

impl Course {
    // The course by which this call is timed, with so many things in each unit.
    pub(crate) fn of(
        alloc: Global,
        work: Timed,
        turns: Turns,
        size: u64,
    ) -> Result<Course, AllocError> {
        let shape = match work {
            Timed::Put => &PUTS,
            Timed::Get => &GETS,
            Timed::Del => &REMOVALS,
            Timed::Enq => &ADDITIONS,
            Timed::Deq => &TAKINGS,
            Timed::AddEdge => &NEW_EDGES,
            Timed::Degree => &COUNTS,
        };
        let mut course = Course {
            first: Vec::new(alloc),
            before: Vec::new(alloc),
            timed: Vec::new(alloc),
            after: Vec::new(alloc),
        };
        let least = if shape.long { LONG } else { 1 };
        turns.push_steps(&mut course.first, shape.first, size, 1)?;
        turns.push_steps(&mut course.before, shape.before, size, 1)?;
        turns.push_steps(&mut course.timed, shape.timed, size, least)?;
        turns.push_steps(&mut course.after, shape.after, size, 1)?;
        Ok(course)
    }

    // Puts of so many pairs, by an only caller.
    pub(crate) fn puts(alloc: Global, pairs: u64) -> Result<Vec<Op>, AllocError> {
        let mut ops = Vec::new(alloc);
        ALONE.push_ops(&mut ops, Deed::Put, pairs, 1)?;
        Ok(ops)
    }
}
