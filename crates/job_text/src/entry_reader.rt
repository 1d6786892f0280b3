// Entries of histories, with their runs, from the lines that spell them.
ghost use Rattle.std.specs.Prelude.{◌≡◌, ◌≢◌, ◌≤◌, ◌∷◌, [], ◌++◌, map, true, false, MatchOption, MatchResult, OnOk, IfOk};
ghost use Rattle.mont_base.specs.declared.operation.Op.{Op};
ghost use Rattle.mont_base.specs.declared.operation.Reply.{Reply};
ghost use Rattle.mont_base.specs.State.{Run};
ghost use Rattle.job_text.specs.Spelling.{reply_words, run_words};
ghost use Rattle.job_text.specs.Operations.{IsOp};
ghost use Rattle.job_text.specs.Runs.{Spelled, HasRuns, spelled, has_run, kept_run};
ghost use Rattle.job_text.specs.ReportText.{entry_words, answer_words};
ghost use Rattle.job_text.specs.ReportRanges.{IsSpelled, IsReply, IsRunOf, is_of_key};
ghost use Rattle.job_text.specs.ReportRows.{Tells, line_of_row, AllOf, is_short};
ghost use Rattle.job_text.specs.TextParts.{rows_from};
ghost use Rattle.job_text.specs.Readings.{Reads, Refuses};

use crate::number_words::{number, numbers};
use crate::op_name::OpName;
use crate::operations::read_op;
use crate::report::Run;
use crate::report_refusal::ReportRefusal;
use crate::run_reader::read_run;
use crate::text_word::text;
use crate::unread::Unread;
use crate::words_behind::behind;
use mont_base::{Entry, Op, PairList, Reply, Sequence};
use std::alloc::{AllocError, Global};

/// So many entries, and the runs of their ranges. No room is made for them before they are there.
pub fn next_entries(
    alloc: Global,
    lines: &mut Unread<'_>,
    callers: u64,
    count: u64,
) -> Result<(Sequence<Entry>, Sequence<Run>), ReportRefusal>
    requires { 1 ≤ callers }
    ensures { MatchResult result
        (λ p. HasRuns p.0 p.1 × Reads (AllOf (λ place e. IsSpelled callers e) count)
        (rows_from (λ place. line_of_row (entry_words place)) 0) lines.old lines.new
        (spelled p.0 p.1))
        (λ e. Refuses (AllOf (λ place e. IsSpelled callers e) count)
        (rows_from (λ place. line_of_row (entry_words place)) 0) lines.old e) }
{
    let mut entries = Sequence::new(alloc);
    let mut runs = Sequence::new(alloc);
    for place in 0..count {
        let (entry, run) = next_entry(lines, callers, place)?;
        entries.push(entry)?;
        keep_run(alloc, &mut runs, &entry.reply, &run)?;
    }
    Ok((entries, runs))
}

// The entry at this place of a history, by one of so many callers, and its run.
fn next_entry(
    lines: &mut Unread<'_>,
    callers: u64,
    place: u64,
) -> Result<(Entry, PairList), ReportRefusal>
    requires { 1 ≤ callers }
    ensures { Tells (IsSpelled callers) (line_of_row (entry_words place)) lines.old lines.new
        result }
{
    let words = lines.words()?;
    match entry_of(words.as_slice(), callers, place) {
        Some(entry) => Ok(entry),
        None => Err(lines.refused()),
    }
}

// Keeps the run beside a reply that has one.
fn keep_run(
    alloc: Global,
    runs: &mut Sequence<Run>,
    reply: &Reply,
    run: &PairList,
) -> Result<(), AllocError>
    ensures { OnOk result (runs.new ≡ runs.old ++ kept_run (has_run reply.now) run.now) }
{
    if let Reply::Pairs { .. } = reply {
        let kept = copied(alloc, run)?;
        runs.push(kept)?;
    }
    Ok(())
}

// The pairs, in memory of their own.
fn copied(alloc: Global, run: &PairList) -> Result<Run, AllocError>
    ensures { IfOk result (λ copy. copy ≡ run.now) }
{
    let mut copy = Sequence::new(alloc);
    for pair in run.as_slice() {
        copy.push(*pair)?;
    }
    Ok(copy)
}

fn entry_of(words: &[&[u8]], callers: u64, place: u64) -> Option<(Entry, PairList)>
    ensures { MatchOption result
        ((p : Spelled) → IsSpelled callers p
        → map (λ word. word.now) words.now ≢ entry_words place p)
        (λ p. IsSpelled callers p × (map (λ word. word.now) words.now ≡ entry_words place p)) }
{
    if words.len() < 4 {
        return None;
    }
    let [own, caller, call, epoch] = numbers::<4>(&words[..4])?;
    let (op, reply, run) = answer_of(&words[4..])?;
    if own == place && caller < callers {
        let entry = Entry {
            caller,
            call,
            op,
            reply,
            epoch,
        };
        Some((entry, run))
    } else {
        None
    }
}

/// The operation, and its reply with the run, with `=` between them, that words spell. The first
/// word tells how many words the operation has, since a key or a value may be the word `=` too.
pub fn answer_of(words: &[&[u8]]) -> Option<(Op, Reply, PairList)>
    ensures { MatchOption result
        ((o : Op) (r : Reply) (run : Run) → IsOp o → IsReply (is_of_key o) r → IsRunOf r run
        → map (λ word. word.now) words.now ≢ answer_words o r run)
        (λ p. IsOp p.0 × IsReply (is_of_key p.0) p.1 × IsRunOf p.1 p.2
        × (map (λ word. word.now) words.now ≡ answer_words p.0 p.1 p.2)) }
{
    let (name, _) = words.split_first()?;
    let count = 1 + OpName::of_word(name)?.args_count();
    if words.len() < count {
        return None;
    }
    let op = read_op(&words[..count])?;
    let told = behind(&words[count..], b"=")?;
    let (reply, run) = reply_of(is_of_key(&op), told)?;
    Some((op, reply, run))
}

// Whether a value in an operation's reply is a text: it is for those of maps and ordered units.
fn is_of_key(op: &Op) -> bool
    ensures { result ≡ is_of_key op.now }
{
    matches!(
        op,
        Op::Put { .. }
            | Op::Get { .. }
            | Op::Del { .. }
            | Op::OPut { .. }
            | Op::OGet { .. }
            | Op::ODel { .. }
            | Op::OFloor { .. }
            | Op::ORank { .. }
            | Op::ORange { .. }
    )
}

// The reply to an operation on a key, or to another, and its run.
fn reply_of(of_key: bool, words: &[&[u8]]) -> Option<(Reply, PairList)>
    ensures { MatchOption result
        ((r : Reply) (run : Run) → IsReply of_key r → IsRunOf r run
        → map (λ word. word.now) words.now ≢ reply_words r ++ run_words run)
        (λ p. IsReply of_key p.0 × IsRunOf p.0 p.1
        × (map (λ word. word.now) words.now ≡ reply_words p.0 ++ run_words p.1)) }
{
    match words {
        [word] => Some((short_reply(word)?, PairList::empty())),
        [name, count, pairs @ ..] if *name == b"pairs".as_slice() => {
            let number = number(count)?;
            let run = read_run(pairs)?;
            if run.len() == number {
                Some((Reply::Pairs { number }, run))
            } else {
                None
            }
        }
        [name, value] => Some((long_reply(of_key, name, value)?, PairList::empty())),
        _ => None,
    }
}

// The reply of one word.
fn short_reply(word: &[u8]) -> Option<Reply>
    ensures { MatchOption result ((r : Reply) → reply_words r ≢ word.now ∷ [])
        (λ r. is_short r ≡ true × (reply_words r ≡ word.now ∷ [])) }
{
    if word == b"none".as_slice() {
        Some(Reply::Nothing)
    } else if word == b"noends".as_slice() {
        Some(Reply::NoEnds)
    } else {
        None
    }
}

// The reply of two words, but for a number of pairs.
fn long_reply(of_key: bool, name: &[u8], value: &[u8]) -> Option<Reply>
    ensures { MatchOption result
        ((r : Reply) → IsReply of_key r → has_run r ≡ false
        → reply_words r ≢ name.now ∷ value.now ∷ [])
        (λ r. IsReply of_key r × (has_run r ≡ false)
        × (reply_words r ≡ name.now ∷ value.now ∷ [])) }
{
    if name == b"key".as_slice() {
        let key = text(value)?;
        Some(Reply::Key { key })
    } else if name == b"count".as_slice() {
        let number = number(value)?;
        Some(Reply::Count { number })
    } else if name != b"was".as_slice() {
        None
    } else if of_key {
        let value = text(value)?;
        Some(Reply::WasText { value })
    } else {
        let value = number(value)?;
        Some(Reply::Was { value })
    }
}
