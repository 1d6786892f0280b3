// What the lines of a caller of the generated job ask.
ghost use Rattle.std.specs.Prelude.{◌≡◌, ◌<◌};
ghost use Rattle.big_job.specs.GeneratedLines.{graph_op, key, op_at, op_of, vertex};

use mont_base::{Op, Text, Unit};

/// How many callers there are.
pub const CALLERS: u64 = 4;

/// How many lines each caller has.
pub const LINES: u64 = 5000;

const KEYS: u64 = 200;

const QUEUE: Unit = 4;

const GRAPH: Unit = 5;

/// The operation of a line, which is counted from 0 and made of this word.
pub fn op_of(caller: u64, line: u64, word: u64) -> Op
    requires caller { caller < CALLERS }
    requires line { line < LINES }
    ensures { result ≡ op_of caller line word }
{
    op_at(caller, line / 10, line % 10, word)
}

// The operation at a place of ten lines.
fn op_at(caller: u64, ten: u64, place: u64, word: u64) -> Op
    requires caller { caller < CALLERS }
    requires ten { ten < LINES }
    ensures { result ≡ op_at caller ten place word }
{
    let first = 4 * ten;
    match place {
        0..=3 => Op::Put {
            key: key(caller, first + place),
            value: Text::of_number(word),
        },
        4 => Op::Get {
            key: key(caller, first),
        },
        5 => Op::Del {
            key: key(caller, first + 1),
        },
        6 => Op::Enq {
            unit: QUEUE,
            item: word,
        },
        7 => Op::Get {
            key: key(caller, first + 1),
        },
        8 => graph_op(caller, ten, word),
        _ => Op::Get {
            key: key(caller, first + 2),
        },
    }
}

// By turns a vertex, and an edge from it to the one before it.
fn graph_op(caller: u64, ten: u64, word: u64) -> Op
    requires caller { caller < CALLERS }
    requires ten { ten < LINES }
    ensures { result ≡ graph_op caller ten word }
{
    let number = ten / 2;
    let from = vertex(caller, number);
    if ten % 2 == 0 {
        return Op::AddV {
            unit: GRAPH,
            vertex: from,
            attr: word,
        };
    }
    Op::AddE {
        unit: GRAPH,
        from,
        to: vertex(caller, number.saturating_sub(1)),
        attr: word,
    }
}

fn key(caller: u64, place: u64) -> Text
    requires { caller < CALLERS }
    ensures { result ≡ key caller place }
{
    Text::of_number(4 * (place % KEYS) + caller)
}

fn vertex(caller: u64, number: u64) -> u64
    requires caller { caller < CALLERS }
    requires number { number < LINES }
    ensures { result ≡ vertex caller number }
{
    4 * number + caller
}
