// Operations from the words that spell them.
ghost use Rattle.std.specs.Prelude.{◌≡◌, ◌≢◌, ◌≤◌, ◌∷◌, [], map, decimal, MatchOption, List, ℕ};
ghost use Rattle.mont_base.specs.declared.constants.TheConstants.{MOST_PAIRS};
ghost use Rattle.mont_base.specs.declared.operation.Op.{Op};
ghost use Rattle.mont_base.specs.Texts.{IsText};
ghost use Rattle.job_text.specs.Spelling.{op_words, text_word};
ghost use Rattle.job_text.specs.Operations.{IsOp, IsNumber};

use crate::header::number_within;
use crate::number_words::{number, numbers};
use crate::op_name::OpName;
use crate::text_word::text;
use mont_base::{MOST_PAIRS, Op, Text};

/// The operation that words spell, whether or not there is a unit for it.
pub fn read_op(words: &[&[u8]]) -> Option<Op>
    ensures { MatchOption result
        ((o : Op) → IsOp o → map (λ word. word.now) words.now ≢ op_words o)
        (λ o. IsOp o × (map (λ word. word.now) words.now ≡ op_words o)) }
{
    let (name, args) = words.split_first()?;
    match OpName::of_word(name)? {
        OpName::Put => {
            let (key, value) = pair(args)?;
            Some(Op::Put { key, value })
        }
        OpName::Get => Some(Op::Get { key: key(args)? }),
        OpName::Del => Some(Op::Del { key: key(args)? }),
        OpName::Enq => {
            let [unit, item] = numbers::<2>(args)?;
            Some(Op::Enq { unit, item })
        }
        OpName::Deq => {
            let [unit] = numbers::<1>(args)?;
            Some(Op::Deq { unit })
        }
        OpName::Len => {
            let [unit] = numbers::<1>(args)?;
            Some(Op::Len { unit })
        }
        OpName::AddV => {
            let [unit, vertex, attr] = numbers::<3>(args)?;
            Some(Op::AddV { unit, vertex, attr })
        }
        OpName::DelV => {
            let [unit, vertex] = numbers::<2>(args)?;
            Some(Op::DelV { unit, vertex })
        }
        OpName::AddE => {
            let [unit, from, to, attr] = numbers::<4>(args)?;
            Some(Op::AddE {
                unit,
                from,
                to,
                attr,
            })
        }
        OpName::DelE => {
            let [unit, from, to] = numbers::<3>(args)?;
            Some(Op::DelE { unit, from, to })
        }
        OpName::Vertex => {
            let [unit, vertex] = numbers::<2>(args)?;
            Some(Op::Vertex { unit, vertex })
        }
        OpName::Degree => {
            let [unit, vertex] = numbers::<2>(args)?;
            Some(Op::Degree { unit, vertex })
        }
        OpName::OPut => {
            let (unit, args) = of_unit(args)?;
            let (key, value) = pair(args)?;
            Some(Op::OPut { unit, key, value })
        }
        OpName::OGet => {
            let (unit, key) = unit_key(args)?;
            Some(Op::OGet { unit, key })
        }
        OpName::ODel => {
            let (unit, key) = unit_key(args)?;
            Some(Op::ODel { unit, key })
        }
        OpName::OFloor => {
            let (unit, key) = unit_key(args)?;
            Some(Op::OFloor { unit, key })
        }
        OpName::ORank => {
            let (unit, key) = unit_key(args)?;
            Some(Op::ORank { unit, key })
        }
        OpName::ORange => {
            let (unit, from, to, most) = range(args)?;
            Some(Op::ORange {
                unit,
                from,
                to,
                most,
            })
        }
    }
}

// The number and the key that words spell.
fn unit_key(words: &[&[u8]]) -> Option<(u64, Text)>
    ensures { MatchOption result
        ((n : ℕ) (t : List ℕ) → IsNumber n → IsText t
        → map (λ word. word.now) words.now ≢ decimal n ∷ text_word t ∷ [])
        (λ p. IsNumber p.0 × IsText p.1
        × (map (λ word. word.now) words.now ≡ decimal p.0 ∷ text_word p.1 ∷ [])) }
{
    match words {
        [unit, key] => Some((number(unit)?, text(key)?)),
        _ => None,
    }
}

// The number that the first word spells, and the words after it.
fn of_unit<'a, 'b>(words: &'a [&'b [u8]]) -> Option<(u64, &'a [&'b [u8]])>
    ensures { MatchOption result
        ((n : ℕ) (rest : List (List ℕ)) → IsNumber n
        → map (λ word. word.now) words.now ≢ decimal n ∷ rest)
        (λ p. IsNumber p.0 × (map (λ word. word.now) words.now
        ≡ decimal p.0 ∷ map (λ word. word.now) p.1.now)) }
{
    let (first, rest) = words.split_first()?;
    let unit = number(first)?;
    Some((unit, rest))
}

// The unit, the keys and the number of a range that words spell.
fn range(words: &[&[u8]]) -> Option<(u64, Text, Text, u64)>
    ensures { MatchOption result
        ((n : ℕ) (s t : List ℕ) (most : ℕ) → IsNumber n → IsText s → IsText t → 1 ≤ most
        → most ≤ MOST_PAIRS → map (λ word. word.now) words.now
        ≢ decimal n ∷ text_word s ∷ text_word t ∷ decimal most ∷ [])
        (λ p. IsNumber p.0 × IsText p.1 × IsText p.2 × (1 ≤ p.3) × (p.3 ≤ MOST_PAIRS)
        × (map (λ word. word.now) words.now
        ≡ decimal p.0 ∷ text_word p.1 ∷ text_word p.2 ∷ decimal p.3 ∷ [])) }
{
    match words {
        [unit, from, to, most] => Some((
            number(unit)?,
            text(from)?,
            text(to)?,
            number_within(most, 1, MOST_PAIRS as u64)?,
        )),
        _ => None,
    }
}

// The one text that words spell.
fn key(words: &[&[u8]]) -> Option<Text>
    ensures { MatchOption result
        ((t : List ℕ) → IsText t → map (λ word. word.now) words.now ≢ text_word t ∷ [])
        (λ t. IsText t × (map (λ word. word.now) words.now ≡ text_word t ∷ [])) }
{
    match words {
        [word] => text(word),
        _ => None,
    }
}

// The two texts that words spell.
fn pair(words: &[&[u8]]) -> Option<(Text, Text)>
    ensures { MatchOption result
        ((s t : List ℕ) → IsText s → IsText t
        → map (λ word. word.now) words.now ≢ text_word s ∷ text_word t ∷ [])
        (λ p. IsText p.0 × IsText p.1
        × (map (λ word. word.now) words.now ≡ text_word p.0 ∷ text_word p.1 ∷ [])) }
{
    match words {
        [first, second] => Some((text(first)?, text(second)?)),
        _ => None,
    }
}
