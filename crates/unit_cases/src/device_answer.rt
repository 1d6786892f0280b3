// What is told of devices in memory, of gates, and of lists in place.
use crate::case_rows::{line_of, number_of, numbers_of, rows_of};
use crate::entry_shown::tell_pair;
use crate::layout_answer::push_lines;
use case_file::{Case, Unanswered, numbers_in};
use mont_base::{
    Cut, Entry, Failed, Fuel, Gate, MOST_PAIRS, MemSink, MemSource, Op, PairList, Receipt, Reply,
    Sink, SlotList, Source, Steady, Text, deliver,
};
use std::alloc::{AllocError, Global};
use std::mem::size_of;

const CALLS: &str = "calls";

/// What the source of the part `source`, the sink of the part `sink`, the gate of the part `fuel`
/// and the lists of the parts `slots` and `pairs` answer; with a part `sizes` how many bytes values
/// take.
pub fn tell_devices(answer: &mut String, alloc: Global, case: &Case) -> Result<(), Unanswered> {
    if let Some(bytes) = case.part("source") {
        tell_source(answer, alloc, case, line_of(bytes))?;
    }
    if case.part("sink").is_some() {
        tell_sink(answer, alloc, case)?;
    }
    for row in &rows_of(alloc, case, "fuel")? {
        tell_gates(answer, row)?;
    }
    for row in &rows_of(alloc, case, "slot lists")? {
        tell_slots(answer, alloc, row)?;
    }
    for many in &numbers_of(alloc, case, "pairs")? {
        tell_pairs(answer, *many)?;
    }
    if case.part("sizes").is_some() {
        tell_sizes(answer)?;
    }
    Ok(())
}

// What reads of the sizes in the part `reads` give of bytes, and the four bytes into which they
// read. The part `calls` has the bytes of a call, and the calls that fail.
fn tell_source(
    answer: &mut String,
    alloc: Global,
    case: &Case,
    bytes: &[u8],
) -> Result<(), Unanswered> {
    let (piece, failing) = calls_of(alloc, case)?;
    if piece == 0 {
        return Err(Unanswered::Unclear { head: CALLS });
    }
    let mut source = MemSource::new(Vec::from_slice(alloc, bytes)?, piece, failing);
    let mut buf = [b'.'; 4];
    for size in &numbers_of(alloc, case, "reads")? {
        tell_read(answer, &mut source, &mut buf, *size as usize)?;
    }
    Ok(())
}

// The bytes of a call, and the calls that fail.
fn calls_of(alloc: Global, case: &Case) -> Result<(u64, Vec<u64>), Unanswered> {
    match numbers_in(alloc, CALLS, case.needed(CALLS)?)?.as_slice() {
        [piece, failing @ ..] => Ok((*piece, Vec::from_slice(alloc, failing)?)),
        [] => Err(Unanswered::Unclear { head: CALLS }),
    }
}

// What a read of so many bytes gives.
fn tell_read(
    answer: &mut String,
    source: &mut MemSource,
    buf: &mut [u8],
    size: usize,
) -> Result<(), Unanswered> {
    let Some(front) = buf.get_mut(..size) else {
        return Err(Unanswered::Unclear { head: "reads" });
    };
    if front.is_empty() {
        return Err(Unanswered::Unclear { head: "reads" });
    }
    tell_count(answer, source.read(front))?;
    write!(answer, " ")?;
    push_lines(answer, buf)?;
    writeln!(answer)?;
    Ok(())
}

// How many bytes a call moved.
fn tell_count(answer: &mut String, moved: Result<usize, Failed>) -> Result<(), AllocError> {
    match moved {
        Ok(count) => write!(answer, "{count}"),
        Err(Failed) => write!(answer, "failed"),
    }
}

// What a sink takes. The part `sink` has its room, and the part `calls` the bytes of a call and the
// calls that fail.
fn tell_sink(answer: &mut String, alloc: Global, case: &Case) -> Result<(), Unanswered> {
    let room = number_of(alloc, case, "sink")?;
    let (piece, failing) = calls_of(alloc, case)?;
    if piece == 0 {
        return Err(Unanswered::Unclear { head: CALLS });
    }
    let mut sink = MemSink::new(alloc, room, piece, failing)?;
    Ok(tell_taken(answer, case, &mut sink)?)
}

// What comes of the writes of the part `written` and of the deliveries of the part `delivered`,
// between two of which stands a bar, and what was taken.
fn tell_taken(answer: &mut String, case: &Case, sink: &mut MemSink) -> Result<(), AllocError> {
    for bytes in case
        .part("written")
        .unwrap_or(b"")
        .split(|byte| *byte == b'|')
    {
        if !bytes.is_empty() {
            tell_count(answer, sink.write(bytes))?;
            writeln!(answer)?;
        }
    }
    for bytes in case
        .part("delivered")
        .unwrap_or(b"")
        .split(|byte| *byte == b'|')
    {
        if !bytes.is_empty() {
            match deliver(sink, bytes) {
                Ok(()) => writeln!(answer, "delivered")?,
                Err(Failed) => writeln!(answer, "failed")?,
            }
        }
    }
    push_lines(answer, sink.taken())?;
    writeln!(answer)
}

// So many steps of a gate that passes some, of one that passes all, and of one without fuel.
fn tell_gates(answer: &mut String, row: &[u64]) -> Result<(), Unanswered> {
    let [passed, steps] = row else {
        return Err(Unanswered::Unclear { head: "fuel" });
    };
    let (mut steady, mut endless, mut fuel) = (Steady, Fuel::endless(), Fuel::new(*passed));
    for _ in 0..*steps {
        tell_step(answer, fuel.step())?;
        tell_step(answer, endless.step())?;
        tell_step(answer, steady.step())?;
        let (cuts, none) = (fuel.cuts, endless.cuts);
        writeln!(answer, "{cuts} and {none} cuts")?;
    }
    Ok(())
}

fn tell_step(answer: &mut String, step: Result<(), Cut>) -> Result<(), AllocError> {
    match step {
        Ok(()) => write!(answer, "passes, "),
        Err(Cut) => write!(answer, "cut, "),
    }
}

// A list with room for two slots, which is filled, cleared and filled again.
fn tell_slots(answer: &mut String, alloc: Global, row: &[u64]) -> Result<(), Unanswered> {
    let [first, second, third] = row else {
        return Err(Unanswered::Unclear { head: "slot lists" });
    };
    let mut list = SlotList::with_room(alloc, 2)?;
    tell_list(answer, &list)?;
    list.push(*first);
    list.push(*second);
    tell_list(answer, &list)?;
    list.clear();
    list.push(*third);
    Ok(tell_list(answer, &list)?)
}

fn tell_list(answer: &mut String, list: &SlotList) -> Result<(), AllocError> {
    if list.is_empty() {
        write!(answer, "empty, ")?;
    }
    write!(answer, "slots")?;
    for place in 0..list.len() {
        let slot = list.at(place);
        write!(answer, " {slot}")?;
    }
    writeln!(answer)
}

// The pairs of each of so many numbers and its double.
fn tell_pairs(answer: &mut String, many: u64) -> Result<(), AllocError> {
    let mut pairs = PairList::empty();
    for at in 0..many {
        if pairs.len() == at && at < MOST_PAIRS as u64 {
            pairs.push(Text::of_number(at), Text::of_number(at.wrapping_mul(2)));
        }
    }
    let (count, none) = (pairs.len(), pairs == PairList::empty());
    writeln!(answer, "{count} pairs, none: {none}")?;
    for (at, (key, value)) in pairs.as_slice().iter().enumerate() {
        let at = at as u64;
        if at < pairs.len() && pairs.pair(at) == (*key, *value) {
            tell_pair(answer, key, value)?;
            writeln!(answer)?;
        }
    }
    Ok(())
}

fn tell_sizes(answer: &mut String) -> Result<(), AllocError> {
    let (text, reply, op) = (size_of::<Text>(), size_of::<Reply>(), size_of::<Op>());
    writeln!(answer, "a text {text}, a reply {reply}, an operation {op}")?;
    let (entry, receipt) = (size_of::<Entry>(), size_of::<Receipt>());
    writeln!(answer, "an entry {entry}, a receipt {receipt}")
}
