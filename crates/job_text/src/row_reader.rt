// The lines of a unit's contents, one each for a pair, an item, a vertex or an edge.
ghost use Rattle.std.specs.Prelude.{◌≡◌, ◌≢◌, ◌↔◌, ◌<◌, ◌^◌, ◌-◌, ◌∷◌, [], ℕ, List, map, min, IsTrue, MatchOption, IfSome};
ghost use Rattle.mont_base.specs.declared.constants.TheConstants.{TEXT_BYTES};
ghost use Rattle.mont_base.specs.State.{Key, Value, Ends};
ghost use Rattle.mont_base.specs.Texts.{IsText};
ghost use Rattle.job_text.specs.Operations.{IsNumber};
ghost use Rattle.job_text.specs.Ranks.{IsNext, texts_behind, numbers_behind, edges_behind};
ghost use Rattle.job_text.specs.ReportText.{item_words, vertex_words, edge_words};
ghost use Rattle.job_text.specs.Spelling.{pair_words};
ghost use Rattle.job_text.specs.ReportRanges.{IsPair, IsVertex, IsEdge};
ghost use Rattle.job_text.specs.ReportRows.{Tells, line_of_row, pair_behind, vertex_behind, edge_behind, all_pairs, all_vertices, all_edges, behind_last, MayFollow};

use crate::number_words::{number, numbers};
use crate::ranks::{edges_behind, texts_behind};
use crate::report_refusal::ReportRefusal;
use crate::text_word::text;
use crate::unread::Unread;
use mont_base::Text;

/// A pair whose key stands after the last one, and before so many others.
pub fn next_pair(
    lines: &mut Unread<'_>,
    last: Option<Text>,
    left: u64,
) -> Result<(Text, Text), ReportRefusal>
    requires room { left < behind_last (texts_behind TEXT_BYTES) all_pairs last }
    requires text { IfSome last IsText }
    ensures { Tells
        (IsNext IsPair pair_behind (behind_last (texts_behind TEXT_BYTES) all_pairs last) left)
        (line_of_row pair_words) lines.old lines.new result }
{
    let words = lines.words()?;
    match pair_of(words.as_slice(), last, left) {
        Some(pair) => Ok(pair),
        None => Err(lines.refused()),
    }
}

fn pair_of(words: &[&[u8]], last: Option<Text>, left: u64) -> Option<(Text, Text)>
    requires { IfSome last IsText }
    ensures { MatchOption result
        ((p : Key × Value)
        → IsNext IsPair pair_behind (behind_last (texts_behind TEXT_BYTES) all_pairs last) left p
        → map (λ word. word.now) words.now ≢ pair_words p)
        (λ p. IsNext IsPair pair_behind
        (behind_last (texts_behind TEXT_BYTES) all_pairs last) left p
        × (map (λ word. word.now) words.now ≡ pair_words p)) }
{
    let (key, value) = pair_in(words)?;
    if may_follow(last, &key, left) {
        Some((key, value))
    } else {
        None
    }
}

fn pair_in(words: &[&[u8]]) -> Option<(Text, Text)>
    ensures { MatchOption result
        ((p : Key × Value) → IsPair p → map (λ word. word.now) words.now ≢ pair_words p)
        (λ p. IsPair p × (map (λ word. word.now) words.now ≡ pair_words p)) }
{
    match words {
        [key, value] => {
            let key = text(key)?;
            let value = text(value)?;
            Some((key, value))
        }
        _ => None,
    }
}

// Whether a key stands after the last one, if there is one, and before so many others.
fn may_follow(last: Option<Text>, key: &Text, left: u64) -> bool
    requires last { IfSome last IsText }
    requires key { IsText key.now }
    ensures { IsTrue result
        ↔ MayFollow (texts_behind TEXT_BYTES) (behind_last (texts_behind TEXT_BYTES) all_pairs last)
        left key.now }
{
    is_behind(last, key) && left <= texts_behind(key)
}

fn is_behind(last: Option<Text>, key: &Text) -> bool
    requires last { IfSome last IsText }
    requires key { IsText key.now }
    ensures { IsTrue result
        ↔ (texts_behind TEXT_BYTES key.now < behind_last (texts_behind TEXT_BYTES) all_pairs last) }
{
    match last {
        Some(last) => last < *key,
        None => true,
    }
}

/// An item of a queue.
pub fn next_item(lines: &mut Unread<'_>) -> Result<u64, ReportRefusal>
    ensures { Tells IsNumber (line_of_row item_words) lines.old lines.new result }
{
    let words = lines.words()?;
    match item_of(words.as_slice()) {
        Some(item) => Ok(item),
        None => Err(lines.refused()),
    }
}

fn item_of(words: &[&[u8]]) -> Option<u64>
    ensures { MatchOption result
        ((n : ℕ) → IsNumber n → map (λ word. word.now) words.now ≢ item_words n)
        (λ n. IsNumber n × (map (λ word. word.now) words.now ≡ item_words n)) }
{
    let [item] = numbers::<1>(words)?;
    Some(item)
}

/// A vertex after the last one, and before so many others, with its attribute.
pub fn next_vertex(
    lines: &mut Unread<'_>,
    last: Option<u64>,
    left: u64,
) -> Result<(u64, u64), ReportRefusal>
    requires { left < behind_last numbers_behind all_vertices last }
    ensures { Tells
        (IsNext IsVertex vertex_behind (behind_last numbers_behind all_vertices last) left)
        (line_of_row vertex_words) lines.old lines.new result }
{
    let words = lines.words()?;
    match vertex_of(words.as_slice(), last, left) {
        Some(vertex) => Ok(vertex),
        None => Err(lines.refused()),
    }
}

fn vertex_of(words: &[&[u8]], last: Option<u64>, left: u64) -> Option<(u64, u64)>
    ensures { MatchOption result
        ((v : ℕ × ℕ) → IsNext IsVertex vertex_behind
        (behind_last numbers_behind all_vertices last) left v
        → map (λ word. word.now) words.now ≢ vertex_words v)
        (λ v. IsNext IsVertex vertex_behind (behind_last numbers_behind all_vertices last) left v
        × (map (λ word. word.now) words.now ≡ vertex_words v)) }
{
    let (vertex, attribute) = vertex_in(words)?;
    if vertex_may_follow(last, vertex, left) {
        Some((vertex, attribute))
    } else {
        None
    }
}

fn vertex_in(words: &[&[u8]]) -> Option<(u64, u64)>
    ensures { MatchOption result
        ((v : ℕ × ℕ) → IsVertex v → map (λ word. word.now) words.now ≢ vertex_words v)
        (λ v. IsVertex v × (map (λ word. word.now) words.now ≡ vertex_words v)) }
{
    let [vertex, attribute] = numbers::<2>(words)?;
    Some((vertex, attribute))
}

fn vertex_may_follow(last: Option<u64>, vertex: u64, left: u64) -> bool
    ensures { IsTrue result
        ↔ MayFollow numbers_behind (behind_last numbers_behind all_vertices last) left vertex }
{
    is_above(last, vertex) && left <= u64::MAX - vertex
}

// Whether a vertex is above the last one, if there is one.
fn is_above(last: Option<u64>, vertex: u64) -> bool
    ensures { IsTrue result
        ↔ (numbers_behind vertex < behind_last numbers_behind all_vertices last) }
{
    match last {
        Some(last) => last < vertex,
        None => true,
    }
}

/// An edge after the last one, and before so many others, with its attribute.
pub fn next_edge(
    lines: &mut Unread<'_>,
    last: Option<(u64, u64)>,
    left: u64,
) -> Result<((u64, u64), u64), ReportRefusal>
    requires { left < behind_last edges_behind all_edges last }
    ensures { Tells (IsNext IsEdge edge_behind (behind_last edges_behind all_edges last) left)
        (line_of_row edge_words) lines.old lines.new result }
{
    let words = lines.words()?;
    match edge_of(words.as_slice(), last, left) {
        Some(edge) => Ok(edge),
        None => Err(lines.refused()),
    }
}

fn edge_of(words: &[&[u8]], last: Option<(u64, u64)>, left: u64) -> Option<((u64, u64), u64)>
    ensures { MatchOption result
        ((e : Ends × ℕ) → IsNext IsEdge edge_behind (behind_last edges_behind all_edges last) left e
        → map (λ word. word.now) words.now ≢ edge_words e)
        (λ e. IsNext IsEdge edge_behind (behind_last edges_behind all_edges last) left e
        × (map (λ word. word.now) words.now ≡ edge_words e)) }
{
    let (ends, attribute) = edge_in(words)?;
    if edge_may_follow(last, ends, left) {
        Some((ends, attribute))
    } else {
        None
    }
}

fn edge_in(words: &[&[u8]]) -> Option<((u64, u64), u64)>
    ensures { MatchOption result
        ((e : Ends × ℕ) → IsEdge e → map (λ word. word.now) words.now ≢ edge_words e)
        (λ e. IsEdge e × (map (λ word. word.now) words.now ≡ edge_words e)) }
{
    let [from, to, attribute] = numbers::<3>(words)?;
    Some(((from, to), attribute))
}

fn edge_may_follow(last: Option<(u64, u64)>, ends: (u64, u64), left: u64) -> bool
    ensures { IsTrue result
        ↔ MayFollow edges_behind (behind_last edges_behind all_edges last) left ends }
{
    goes_behind(last, ends) && left <= edges_behind(ends)
}

// Whether an edge stands after the last one, if there is one.
fn goes_behind(last: Option<(u64, u64)>, ends: (u64, u64)) -> bool
    ensures { IsTrue result ↔ (edges_behind ends < behind_last edges_behind all_edges last) }
{
    match last {
        Some(last) => last.0 < ends.0 || (last.0 == ends.0 && last.1 < ends.1),
        None => true,
    }
}
