// Operations that are drawn from a seed, the same at each time.
use mont_base::{Layout, MOST_PAIRS, Op, Text, Unit, UnitKind};
use rand_core::Rng;
use rand_pcg::Pcg64;

// Values, items and attributes are below this.
const VALUES: u64 = 1000;

/// What is drawn from a seed. Keys and vertices are numbers below `names`.
#[derive(Drop)]
pub struct CallDraws {
    generator: Pcg64,
    names: u64,
}

impl CallDraws {
    pub fn of_seed(seed: u64, names: u64) -> CallDraws {
        CallDraws {
            generator: Pcg64::new(u128::from(seed), 0),
            names,
        }
    }

    // A number below this one, which is 0 where there is none.
    fn below(&mut self, many: u64) -> u64 {
        self.generator.next_u64().checked_rem(many).unwrap_or(0)
    }

    fn name(&mut self) -> u64 {
        let names = self.names;
        self.below(names)
    }

    fn key(&mut self) -> Text {
        Text::of_number(self.name())
    }

    fn value(&mut self) -> Text {
        Text::of_number(self.below(VALUES))
    }

    /// An operation on a unit of the store. On a map it may be of another map.
    pub fn op(&mut self, layout: &Layout) -> Option<Op> {
        let unit = self.below(layout.units());
        match layout.kinds().get(unit)? {
            UnitKind::Map => Some(self.op_of_map()),
            UnitKind::Queue => Some(self.op_of_queue(unit)),
            UnitKind::Graph => Some(self.op_of_graph(unit)),
            UnitKind::Ordered => Some(self.op_of_ordered(unit)),
        }
    }

    fn op_of_map(&mut self) -> Op {
        let key = self.key();
        match self.below(4) {
            0 => Op::Get { key },
            1 => Op::Del { key },
            _ => Op::Put {
                key,
                value: self.value(),
            },
        }
    }

    fn op_of_queue(&mut self, unit: Unit) -> Op {
        match self.below(5) {
            0 => Op::Len { unit },
            1 | 2 => Op::Deq { unit },
            _ => Op::Enq {
                unit,
                item: self.below(VALUES),
            },
        }
    }

    fn op_of_graph(&mut self, unit: Unit) -> Op {
        let (vertex, to, attr) = (self.name(), self.name(), self.below(VALUES));
        let from = vertex;
        match self.below(16) {
            0 | 1 | 2 => Op::AddV { unit, vertex, attr },
            3 => Op::DelV { unit, vertex },
            4 | 5 => Op::DelE { unit, from, to },
            6 | 7 => Op::Vertex { unit, vertex },
            8 | 9 => Op::Degree { unit, vertex },
            _ => Op::AddE {
                unit,
                from,
                to,
                attr,
            },
        }
    }

    fn op_of_ordered(&mut self, unit: Unit) -> Op {
        let key = self.key();
        match self.below(8) {
            0 | 1 => Op::OPut {
                unit,
                key,
                value: self.value(),
            },
            2 => Op::OGet { unit, key },
            3 => Op::ODel { unit, key },
            4 => Op::OFloor { unit, key },
            5 => Op::ORank { unit, key },
            _ => Op::ORange {
                unit,
                from: key,
                to: self.key(),
                most: self.below(MOST_PAIRS as u64).saturating_add(1),
            },
        }
    }
}
