// The events of a schedule from the lines that spell them.
ghost use Rattle.std.specs.Prelude.{◌≡◌, ◌≢◌, ◌∷◌, [], ℕ, List, map, decimal, MatchOption};
ghost use Rattle.mont_base.specs.declared.operation.Op.{Op};
ghost use Rattle.mont_base.specs.declared.operation.Reply.{Reply};
ghost use Rattle.mont_base.specs.State.{Run};
ghost use Rattle.core_steps.specs.declared.parts.Part.{Part};
ghost use Rattle.job_text.specs.Lines.{spaced};
ghost use Rattle.job_text.specs.Operations.{IsNumber, IsOp};
ghost use Rattle.job_text.specs.ReportText.{answer_words};
ghost use Rattle.job_text.specs.ReportRanges.{IsReply, IsRunOf, is_of_key};
ghost use Rattle.replay.specs.EventWords.{event_words, part_words, IsPartName, IsNamed, IsRunBeside};
ghost use Rattle.replay.specs.StepNames.{step_word, IsNumbered};
ghost use Rattle.replay.specs.Schedules.{Move, IsMove, move_words};

use crate::move_ranges::is_event_in;
use crate::step_name::StepName;
use core_steps::{Event, Part};
use job_text::{MOST_WORDS, answer_of, behind, named, number, numbers, words};
use mont_base::{Layout, Op, PairList, Reply};

/// The event that a line spells, and the run beside its reply, where they may stand in a schedule
/// of this layout with so many callers.
pub fn read_event(line: &[u8], layout: Layout, callers: u64) -> Option<(Event, PairList)>
    ensures { MatchOption result
        ((m : Move) → IsMove layout callers m → line.now ≢ spaced (move_words m))
        (λ m. IsMove layout callers m × (line.now ≡ spaced (move_words m))) }
{
    let words = words::<MOST_WORDS>(line)?;
    let (event, run) = event_in(words.as_slice())?;
    if is_event_in(layout, callers, &event) {
        Some((event, run))
    } else {
        None
    }
}

// The event that words spell, whether or not its units, slots and callers are there.
fn event_in(words: &[&[u8]]) -> Option<(Event, PairList)>
    ensures { MatchOption result
        ((m : Move) → IsNamed m.0 → IsRunBeside m.0 m.1
        → map (λ word. word.now) words.now ≢ move_words m)
        (λ m. IsNamed m.0 × IsRunBeside m.0 m.1
        × (map (λ word. word.now) words.now ≡ move_words m)) }
{
    let (first, args) = words.split_first()?;
    let name = StepName::of_word(first)?;
    match name {
        StepName::Leave => {
            let (unit, caller, op, reply, run) = answered(args)?;
            Some((
                Event::Leave {
                    unit,
                    caller,
                    op,
                    reply,
                },
                run,
            ))
        }
        StepName::Read => {
            let (unit, caller, op, reply, run) = answered(args)?;
            Some((
                Event::Read {
                    unit,
                    caller,
                    op,
                    reply,
                },
                run,
            ))
        }
        StepName::Durable => {
            let part = part(args)?;
            Some((Event::LoadDurable { part }, PairList::empty()))
        }
        other => Some((numbered(other, args)?, PairList::empty())),
    }
}

// The event of this name whose numbers words spell.
fn numbered(name: StepName, args: &[&[u8]]) -> Option<Event>
    requires { IsNumbered name }
    ensures { MatchOption result
        ((m : Move) → IsNamed m.0 → IsRunBeside m.0 m.1
        → step_word name ∷ map (λ word. word.now) args.now ≢ move_words m)
        (λ e. IsNamed e × IsRunBeside e []
        × (step_word name ∷ map (λ word. word.now) args.now ≡ event_words e [])) }
{
    match name {
        StepName::Look => {
            let [unit] = numbers::<1>(args)?;
            Some(Event::Look { unit })
        }
        StepName::Tell => {
            let [unit, epoch] = numbers::<2>(args)?;
            Some(Event::Tell { unit, epoch })
        }
        StepName::Confirm => {
            let [unit] = numbers::<1>(args)?;
            Some(Event::Confirm { unit })
        }
        StepName::Store => {
            let [unit, slot, field, value] = numbers::<4>(args)?;
            Some(Event::Store {
                unit,
                slot,
                field,
                value,
            })
        }
        StepName::Withdraw => {
            let [unit] = numbers::<1>(args)?;
            Some(Event::Withdraw { unit })
        }
        StepName::Freeze => {
            let [unit, caller] = numbers::<2>(args)?;
            Some(Event::Freeze { unit, caller })
        }
        StepName::Close => {
            let [unit, slot] = numbers::<2>(args)?;
            Some(Event::CloseLabel { unit, slot })
        }
        StepName::PersistClose => {
            let [unit] = numbers::<1>(args)?;
            Some(Event::PersistClose { unit })
        }
        StepName::Check => {
            let [] = numbers::<0>(args)?;
            Some(Event::Check)
        }
        StepName::LoadWord => {
            let [] = numbers::<0>(args)?;
            Some(Event::LoadWord)
        }
        StepName::PersistWord => {
            let [] = numbers::<0>(args)?;
            Some(Event::PersistWord)
        }
        StepName::SetClock => {
            let [] = numbers::<0>(args)?;
            Some(Event::SetClock)
        }
        StepName::PersistClock => {
            let [] = numbers::<0>(args)?;
            Some(Event::PersistClock)
        }
        StepName::Leave | StepName::Read | StepName::Durable => None,
    }
}

// The unit, the caller, the operation, its reply and the run beside it that words spell.
fn answered(words: &[&[u8]]) -> Option<(u64, u64, Op, Reply, PairList)>
    ensures { MatchOption result
        ((u k : ℕ) (o : Op) (r : Reply) (run : Run) → IsNumber u → IsNumber k → IsOp o
        → IsReply (is_of_key o) r → IsRunOf r run → map (λ word. word.now) words.now
        ≢ decimal u ∷ decimal k ∷ answer_words o r run)
        (λ p. IsNumber p.0 × IsNumber p.1 × IsOp p.2 × IsReply (is_of_key p.2) p.3
        × IsRunOf p.3 p.4 × (map (λ word. word.now) words.now
        ≡ decimal p.0 ∷ decimal p.1 ∷ answer_words p.2 p.3 p.4)) }
{
    let (unit, behind_unit) = first_number(words)?;
    let (caller, told) = first_number(behind_unit)?;
    let (op, reply, run) = answer_of(told)?;
    Some((unit, caller, op, reply, run))
}

// The number that the first word spells, and the words after it.
fn first_number<'a, 'b>(words: &'a [&'b [u8]]) -> Option<(u64, &'a [&'b [u8]])>
    ensures { MatchOption result
        ((n : ℕ) (rest : List (List ℕ)) → IsNumber n
        → map (λ word. word.now) words.now ≢ decimal n ∷ rest)
        (λ p. IsNumber p.0 × (map (λ word. word.now) words.now
        ≡ decimal p.0 ∷ map (λ word. word.now) p.1.now)) }
{
    let (first, rest) = words.split_first()?;
    let number = number(first)?;
    Some((number, rest))
}

// The unit or the caller that words name.
fn part(words: &[&[u8]]) -> Option<Part>
    ensures { MatchOption result
        ((p : Part) → IsPartName p → map (λ word. word.now) words.now ≢ part_words p)
        (λ p. IsPartName p × (map (λ word. word.now) words.now ≡ part_words p)) }
{
    if let Some(rest) = behind(words, b"unit") {
        let [unit] = numbers::<1>(rest)?;
        return Some(Part::Unit { unit });
    }
    let [caller] = named::<1>(words, b"caller")?;
    Some(Part::Caller { caller })
}
