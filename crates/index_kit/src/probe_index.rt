// An index by open addressing: entries in a list, and a table that numbers them by their keys.
ghost use Rattle.std.specs.Prelude.{◌≡◌, ◌<◌, length, OnOk, OnErr};
ghost use Rattle.std.specs.FinMap as finite;
ghost use Rattle.index_kit.specs.Table.{IsKeyed};
ghost use Rattle.index_kit.specs.ProbeIndex.{limit_of, IsIndexed};

use crate::cells::Cells;
use crate::index::Index;
use crate::table::{number_of, seat_and_mark, set, set_all, take};
use mont_base::Text;
use std::alloc::{AllocError, Global};
use std::marker::Model;
use std::mem;

// How many cells the first table has.
const FIRST_CELLS: usize = 40;

/// An index that finds a key by its hash, from its home on cell by cell (linear probing). It
/// stays fast after many removals, since a key that is taken out leaves no mark in its cell.
#[derive(Debug, Drop)]
pub struct ProbeIndex {
    entries: Vec<(Text, u64)>,
    cells: Cells,
}

impl Model for ProbeIndex {
    ghost use Rattle.std.specs.Prelude.{◌-◌, min, length, vec_len};
    ghost use Rattle.std.specs.Vec.{vec_capacity};
    ghost use Rattle.std.specs.FinMap as finite;
    ghost use Rattle.index_kit.specs.Index.{IndexView, index_view_code};

    ghost Value = { IndexView };

    ghost coded = { index_view_code };

    ghost use Rattle.index_kit.specs.ProbeIndex.{limit_of, IsIndexed};

    ghost view = { λ i. record {
      places = finite.from_entries i.entries.items;
      spare = min (limit_of (length i.cells)) (vec_capacity i.entries) - vec_len i.entries;
    } };

    ghost invariant = { λ i. IsIndexed i.entries.items i.cells };
}

impl ProbeIndex {
    /// No keys. It allocates nothing.
    pub fn new(alloc: Global) -> Self
        ensures { result ≡ record { places = finite.empty; spare = 0 } }
    {
        ProbeIndex {
            entries: Vec::new(alloc),
            cells: Cells::new(alloc),
        }
    }
}

impl Index for ProbeIndex {
    ghost places = { λ i. i.places };

    ghost spare = { λ i. i.spare };

    fn len(&self) -> u64 {
        self.entries.len() as u64
    }

    fn find(&self, key: Text) -> Option<u64> {
        if self.entries.is_empty() {
            return None;
        }
        let number = number_of(&self.cells, &self.entries, key)?;
        Some(self.entries[number as usize].1)
    }

    fn reserve(&mut self) -> Result<(), AllocError> {
        self.entries.reserve(1)?;
        if self.entries.len() >= limit(self.cells.len()) {
            let alloc = *self.entries.allocator();
            return enlarge(&mut self.cells, &self.entries, alloc);
        }
        Ok(())
    }

    fn put(&mut self, key: Text, place: u64) -> Option<u64> {
        let (at, mark) = seat_and_mark(&self.cells, &self.entries, key);
        match self.cells.number(at) {
            Some(number) => Some(mem::replace(&mut self.entries[number as usize].1, place)),
            None => {
                self.cells.fill(at, mark, self.entries.len() as u32);
                match self.entries.push((key, place)) {
                    Ok(()) => None,
                    Err(_) => unreachable!(),
                }
            }
        }
    }

    fn remove(&mut self, key: Text) -> Option<u64> {
        if self.entries.is_empty() {
            return None;
        }
        let number = take(&mut self.cells, &self.entries, key)?;
        let (_, place) = self.entries[number as usize];
        let last = self.entries.len() - 1;
        if number as usize != last {
            self.entries[number as usize] = self.entries[last];
            set(&mut self.cells, &self.entries, number);
        }
        self.entries.truncate(last);
        Some(place)
    }
}

// Makes a larger table for these entries, with room for one more. It is seldom called, and stays
// apart so that `reserve` is short where there is room.
#[inline(never)]
fn enlarge(cells: &mut Cells, entries: &[(Text, u64)], alloc: Global) -> Result<(), AllocError>
    requires { IsKeyed entries.now }
    ensures indexed { OnOk result (IsIndexed entries.now cells.new) }
    ensures room { OnOk result (length entries.now < limit_of (length cells.new)) }
    ensures err { OnErr result (cells.new ≡ cells.old) }
{
    let size = cells
        .len()
        .checked_mul(2)
        .ok_or(AllocError)?
        .max(FIRST_CELLS);
    if entries.len() >= limit(size) {
        return Err(AllocError);
    }
    let mut larger = Cells::with_len(alloc, size)?;
    set_all(&mut larger, entries);
    *cells = larger;
    Ok(())
}

// How many keys so many cells number at most.
fn limit(cells: usize) -> usize
    ensures { result ≡ limit_of cells }
{
    (cells / 3).min(u32::MAX as usize)
}
