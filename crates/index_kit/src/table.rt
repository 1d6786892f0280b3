// A table of cells in a ring, which numbers entries by their keys. A search goes from a key's
// home cell by cell, and ends at the key or at a free cell.
ghost use Rattle.std.specs.Prelude.{◌≡◌, ◌≢◌, ◌<◌, ◌≤◌, ◌^◌, ℕ, None, length, IfSome, IsSomeAnd};
ghost use Rattle.std.specs.Bool.{OnTrue, OnFalse};
ghost use Rattle.std.specs.FinMap as finite;
ghost use Rattle.index_kit.specs.Cells.{cell_at};
ghost use Rattle.index_kit.specs.Home.{mark_of};
ghost use Rattle.index_kit.specs.Table.{HasFree, IsKeyed, IsMarked, IsNumbering, IsSeat, IsTable, IsTableBut, key_at, numbers_in, seats_of};

use crate::cells::{Cells, FREE, HELD};
use crate::home::home_and_mark;
use crate::ring::{place_behind, steps};
use mont_base::Text;

// The number of a key's entry, if there is one. Most keys that are there stand in their home, and
// most others have a free cell there or after it.
pub(crate) fn number_of(cells: &Cells, entries: &[(Text, u64)], key: Text) -> Option<u32>
    requires marked { IsMarked entries.now cells.now }
    requires table { IsTable (seats_of entries.now cells.now) }
    requires room { HasFree (seats_of entries.now cells.now) }
    ensures { result ≡ finite.get (numbers_in (seats_of entries.now cells.now)) key }
{
    let (at, mark) = home_and_mark(cells.len(), key);
    if holds_own(cells, entries, at, key, mark) {
        return cells.number(at);
    }
    if at + 1 < cells.len() && cells.has_gap(at) {
        return None;
    }
    cells.number(seat(cells, entries, key))
}

// The seat of a key: the cell that numbers its entry, or else the first free one from its home on.
fn seat(cells: &Cells, entries: &[(Text, u64)], key: Text) -> usize
    requires marked { IsMarked entries.now cells.now }
    requires table { IsTable (seats_of entries.now cells.now) }
    requires room { HasFree (seats_of entries.now cells.now) }
    ensures { IsSeat (seats_of entries.now cells.now) key result }
{
    let (at, _) = seat_and_mark(cells, entries, key);
    at
}

// The seat of a key, and its mark.
pub(crate) fn seat_and_mark(cells: &Cells, entries: &[(Text, u64)], key: Text) -> (usize, u8)
    requires marked { IsMarked entries.now cells.now }
    requires table { IsTable (seats_of entries.now cells.now) }
    requires room { HasFree (seats_of entries.now cells.now) }
    ensures seat { IsSeat (seats_of entries.now cells.now) key result.0 }
    ensures mark { result.1 ≡ mark_of key }
    ensures held { HELD ≤ result.1 }
{
    let size = cells.len();
    let (mut at, mark) = home_and_mark(size, key);
    while holds_another(cells, entries, at, key, mark) {
        at = place_behind(size, at);
    }
    (at, mark)
}

// Numbers an entry, whose key may be numbered already.
pub(crate) fn set(cells: &mut Cells, entries: &[(Text, u64)], number: u32)
    requires within { number < length entries.now }
    requires marked { IsMarked entries.now cells.old }
    requires table { IsTable (seats_of entries.now cells.old) }
    requires room { HasFree (seats_of entries.now cells.old) }
    ensures marked { IsMarked entries.now cells.new }
    ensures table { IsTable (seats_of entries.now cells.new) }
    ensures numbered { numbers_in (seats_of entries.now cells.new)
        ≡ finite.insert (numbers_in (seats_of entries.now cells.old))
        (key_at entries.now number) number }
    ensures len { length cells.new ≡ length cells.old }
{
    let (key, _) = entries[number as usize];
    let (at, mark) = seat_and_mark(cells, entries, key);
    cells.fill(at, mark, number);
}

// Numbers all entries in cells that are free.
pub(crate) fn set_all(cells: &mut Cells, entries: &[(Text, u64)])
    requires free { (at : ℕ) → cell_at cells.old at ≡ None }
    requires keyed { IsKeyed entries.now }
    requires room { length entries.now < length cells.old }
    requires bits { length entries.now < 2 ^ 32 }
    ensures marked { IsMarked entries.now cells.new }
    ensures table { IsTable (seats_of entries.now cells.new) }
    ensures numbering { IsNumbering entries.now (numbers_in (seats_of entries.now cells.new)) }
    ensures counted { finite.len (numbers_in (seats_of entries.now cells.new)) ≡ length
        entries.now }
    ensures len { length cells.new ≡ length cells.old }
{
    for number in 0..entries.len() {
        set(cells, entries, number as u32);
    }
}

// Takes the number of a key's entry out, and gives it, if there is one.
pub(crate) fn take(cells: &mut Cells, entries: &[(Text, u64)], key: Text) -> Option<u32>
    requires marked { IsMarked entries.now cells.old }
    requires table { IsTable (seats_of entries.now cells.old) }
    requires room { HasFree (seats_of entries.now cells.old) }
    ensures marked { IsMarked entries.now cells.new }
    ensures table { IsTable (seats_of entries.now cells.new) }
    ensures earlier { result ≡ finite.get (numbers_in (seats_of entries.now cells.old)) key }
    ensures taken { numbers_in (seats_of entries.now cells.new)
        ≡ finite.remove (numbers_in (seats_of entries.now cells.old)) key }
    ensures len { length cells.new ≡ length cells.old }
{
    let at = seat(cells, entries, key);
    let number = cells.number(at)?;
    cells.clear(at);
    close(cells, entries, at);
    Some(number)
}

// Closes the hole that a key left: numbers after it move back, each to a hole that lies between
// the home of its key and its cell, up to the next free cell.
fn close(cells: &mut Cells, entries: &[(Text, u64)], start: usize)
    requires marked { IsMarked entries.now cells.old }
    requires table { IsTableBut (seats_of entries.now cells.old) start }
    ensures marked { IsMarked entries.now cells.new }
    ensures table { IsTable (seats_of entries.now cells.new) }
    ensures same { numbers_in (seats_of entries.now cells.new)
        ≡ numbers_in (seats_of entries.now cells.old) }
    ensures len { length cells.new ≡ length cells.old }
{
    let size = cells.len();
    let mut hole = start;
    let mut at = place_behind(size, start);
    while let Some(number) = cells.number(at) {
        let (key, _) = entries[number as usize];
        let (from, mark) = home_and_mark(size, key);
        if steps(size, from, hole) < steps(size, from, at) {
            cells.clear(at);
            cells.fill(hole, mark, number);
            hole = at;
        }
        at = place_behind(size, at);
    }
}

// Whether a cell numbers the entry of this key. Its mark is looked at first, and alone, so that a
// free cell and one of another key go the same way.
fn holds_own(cells: &Cells, entries: &[(Text, u64)], at: usize, key: Text, mark: u8) -> bool
    requires within { at < length cells.now }
    requires marked { IsMarked entries.now cells.now }
    requires mark { mark ≡ mark_of key }
    ensures own { OnTrue result (IsSomeAnd
        (cell_at (seats_of entries.now cells.now) at) (λ held. held.0 ≡ key)) }
    ensures another { OnFalse result (IfSome
        (cell_at (seats_of entries.now cells.now) at) (λ held. held.0 ≢ key)) }
{
    if cells.mark(at) != mark {
        return false;
    }
    !holds_another(cells, entries, at, key, mark)
}

// Whether a cell numbers the entry of another key.
fn holds_another(cells: &Cells, entries: &[(Text, u64)], at: usize, key: Text, mark: u8) -> bool
    requires within { at < length cells.now }
    requires marked { IsMarked entries.now cells.now }
    requires mark { mark ≡ mark_of key }
    ensures another { OnTrue result (IsSomeAnd
        (cell_at (seats_of entries.now cells.now) at) (λ held. held.0 ≢ key)) }
    ensures own { OnFalse result (IfSome
        (cell_at (seats_of entries.now cells.now) at) (λ held. held.0 ≡ key)) }
{
    let held = cells.mark(at);
    if held == FREE {
        return false;
    }
    if held != mark {
        return true;
    }
    match cells.number(at) {
        Some(number) => entries[number as usize].0 != key,
        None => false,
    }
}
