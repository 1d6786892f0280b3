// Numbers and operations that are drawn, the same at each time.
use mont_base::{Layout, Op, Text, Unit, UnitKind};
use rand_core::Rng;
use rand_pcg::Pcg64;

// Keys, vertices and the ends of edges are below this, so that they often meet.
const NAMES: u64 = 9;

const VALUES: u64 = 1000;

/// What is drawn from a seed.
#[derive(Drop)]
pub struct Draws {
    generator: Pcg64,
}

impl Draws {
    pub fn of_seed(seed: u64) -> Draws {
        Draws {
            generator: Pcg64::new(u128::from(seed), 0),
        }
    }

    /// Any number.
    pub fn number(&mut self) -> u64 {
        self.generator.next_u64()
    }

    /// A number below this one, which is 0 where there is none.
    pub fn below(&mut self, many: u64) -> u64 {
        self.number().checked_rem(many).unwrap_or(0)
    }

    /// A change of a unit of the store, and that unit.
    pub fn change(&mut self, layout: &Layout) -> Option<(Unit, Op)> {
        let unit = self.below(layout.units());
        match layout.kinds().get(unit)? {
            UnitKind::Map if layout.maps() > 0 => {
                let op = self.change_of_map();
                let (Op::Put { key, .. } | Op::Del { key }) = &op else {
                    return None;
                };
                Some((layout.unit_of_key(key), op))
            }
            UnitKind::Map => None,
            UnitKind::Queue => Some((unit, self.change_of_queue(unit))),
            UnitKind::Graph => Some((unit, self.change_of_graph(unit))),
            UnitKind::Ordered => Some((unit, self.change_of_ordered(unit))),
        }
    }

    fn text(&mut self) -> Text {
        Text::of_number(self.below(NAMES))
    }

    fn value(&mut self) -> Text {
        Text::of_number(self.below(VALUES))
    }

    fn change_of_map(&mut self) -> Op {
        let key = self.text();
        match self.below(4) {
            0 => Op::Del { key },
            _ => Op::Put {
                key,
                value: self.value(),
            },
        }
    }

    fn change_of_ordered(&mut self, unit: Unit) -> Op {
        let key = self.text();
        match self.below(4) {
            0 => Op::ODel { unit, key },
            _ => Op::OPut {
                unit,
                key,
                value: self.value(),
            },
        }
    }

    fn change_of_queue(&mut self, unit: Unit) -> Op {
        match self.below(3) {
            0 => Op::Deq { unit },
            _ => Op::Enq {
                unit,
                item: self.below(VALUES),
            },
        }
    }

    fn change_of_graph(&mut self, unit: Unit) -> Op {
        let (vertex, to, attr) = (self.below(NAMES), self.below(NAMES), self.below(VALUES));
        match self.below(8) {
            0 => Op::DelV { unit, vertex },
            1 => Op::DelE {
                unit,
                from: vertex,
                to,
            },
            2 | 3 | 4 => Op::AddE {
                unit,
                from: vertex,
                to,
                attr,
            },
            _ => Op::AddV { unit, vertex, attr },
        }
    }
}
