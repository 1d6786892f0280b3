// Numbers, operations and gates that are drawn, the same at each time.
use mont_base::{Fuel, Op, Text, Unit};
use rand_core::Rng;
use rand_pcg::Pcg64;

// Keys and vertices are below this, so that they often meet.
const NAMES: u64 = 7;

const VALUES: u64 = 1000;

// What is drawn from a seed.
#[derive(Drop)]
pub(crate) struct Draws {
    generator: Pcg64,
}

impl Draws {
    pub(crate) fn new(seed: u64) -> Draws {
        Draws {
            generator: Pcg64::new(u128::from(seed), 0),
        }
    }

    // Draws of their own, whose seed is drawn.
    pub(crate) fn apart(&mut self) -> Draws {
        Draws::new(self.number())
    }

    // Any number.
    pub(crate) fn number(&mut self) -> u64 {
        self.generator.next_u64()
    }

    // A number below this one, which is 0 where there is none.
    pub(crate) fn below(&mut self, many: u64) -> u64 {
        self.number().checked_rem(many).unwrap_or(0)
    }

    // The digits of a number below this one.
    pub(crate) fn text(&mut self, many: u64) -> Text {
        Text::of_number(self.below(many))
    }

    // A gate that cuts before one of so many steps, or, more often, one that never cuts.
    pub(crate) fn gate(&mut self, steps: u64) -> Fuel {
        match self.below(3) {
            0 => Fuel::new(self.below(steps)),
            _ => Fuel::endless(),
        }
    }

    // An operation on one of the units of a store, which are so many maps, and after them a queue,
    // a graph and an ordered unit.
    pub(crate) fn op(&mut self, maps: u64) -> Op {
        match self.below(4) {
            0 => self.map_op(),
            1 => self.queue_op(maps),
            2 => self.graph_op(maps.wrapping_add(1)),
            _ => self.ordered_op(maps.wrapping_add(2)),
        }
    }

    fn map_op(&mut self) -> Op {
        let key = self.text(NAMES);
        match self.below(4) {
            0 => Op::Get { key },
            1 => Op::Del { key },
            _ => Op::Put {
                key,
                value: self.text(VALUES),
            },
        }
    }

    fn queue_op(&mut self, unit: Unit) -> Op {
        match self.below(5) {
            0 => Op::Len { unit },
            1 | 2 => Op::Enq {
                unit,
                item: self.below(VALUES),
            },
            _ => Op::Deq { unit },
        }
    }

    fn graph_op(&mut self, unit: Unit) -> Op {
        let (vertex, to, attr) = (self.below(NAMES), self.below(NAMES), self.below(VALUES));
        let from = vertex;
        match self.below(8) {
            0 | 1 => Op::AddV { unit, vertex, attr },
            2 => Op::DelV { unit, vertex },
            3 => Op::Vertex { unit, vertex },
            4 => Op::Degree { unit, vertex },
            5 => Op::DelE { unit, from, to },
            _ => Op::AddE {
                unit,
                from,
                to,
                attr,
            },
        }
    }

    fn ordered_op(&mut self, unit: Unit) -> Op {
        let key = self.text(NAMES);
        match self.below(8) {
            0 => Op::OGet { unit, key },
            1 => Op::ODel { unit, key },
            2 => Op::OFloor { unit, key },
            3 => Op::ORank { unit, key },
            4 => Op::ORange {
                unit,
                from: key,
                to: self.text(NAMES),
                most: self.below(4).wrapping_add(1),
            },
            _ => Op::OPut {
                unit,
                key,
                value: self.text(VALUES),
            },
        }
    }
}
