// Numbers and operations that are drawn from a seed, the same at each time.
use mont_base::{Layout, Op, Text, Unit, UnitKind};
use rand_core::Rng;
use rand_pcg::Pcg64;

// Keys and vertices are below this, so that they often meet; values, items and attributes too.
const NAMES: u64 = 7;

/// What is drawn from a seed.
#[derive(Drop)]
pub struct EventDraws {
    generator: Pcg64,
}

impl EventDraws {
    pub fn of_seed(seed: u64) -> EventDraws {
        EventDraws {
            generator: Pcg64::new(u128::from(seed), 0),
        }
    }

    /// A number below this one, which is 0 where there is none.
    pub fn below(&mut self, many: u64) -> u64 {
        self.generator.next_u64().checked_rem(many).unwrap_or(0)
    }

    fn name(&mut self) -> u64 {
        self.below(NAMES)
    }

    fn text(&mut self) -> Text {
        Text::of_number(self.name())
    }

    /// An operation of a kind of unit; on a map it may be one of another map.
    pub fn op(&mut self, layout: &Layout, unit: Unit) -> Option<Op> {
        match layout.kinds().get(unit)? {
            UnitKind::Map => Some(self.op_of_map()),
            UnitKind::Queue => Some(self.op_of_queue(unit)),
            UnitKind::Graph => Some(self.op_of_graph(unit)),
            UnitKind::Ordered => Some(self.op_of_ordered(unit)),
        }
    }

    fn op_of_map(&mut self) -> Op {
        let (key, value) = (self.text(), self.text());
        match self.below(4) {
            0 => Op::Get { key },
            1 => Op::Del { key },
            _ => Op::Put { key, value },
        }
    }

    fn op_of_queue(&mut self, unit: Unit) -> Op {
        let item = self.name();
        match self.below(5) {
            0 => Op::Len { unit },
            1 | 2 => Op::Deq { unit },
            _ => Op::Enq { unit, item },
        }
    }

    fn op_of_graph(&mut self, unit: Unit) -> Op {
        let (vertex, to, attr) = (self.name(), self.name(), self.name());
        let from = vertex;
        match self.below(12) {
            0 | 1 | 2 => Op::AddV { unit, vertex, attr },
            3 | 4 | 5 | 6 => Op::AddE {
                unit,
                from,
                to,
                attr,
            },
            7 => Op::DelV { unit, vertex },
            8 => Op::DelE { unit, from, to },
            9 => Op::Vertex { unit, vertex },
            _ => Op::Degree { unit, vertex },
        }
    }

    fn op_of_ordered(&mut self, unit: Unit) -> Op {
        let (key, to, value) = (self.text(), self.text(), self.text());
        let from = key;
        let most = self.below(16).saturating_add(1);
        match self.below(9) {
            0 => Op::OGet { unit, key },
            1 => Op::ODel { unit, key },
            2 => Op::OFloor { unit, key },
            3 => Op::ORank { unit, key },
            4 => Op::ORange {
                unit,
                from,
                to,
                most,
            },
            _ => Op::OPut { unit, key, value },
        }
    }
}
