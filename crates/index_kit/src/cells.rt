// Cells in a row, each of which is free or holds a mark and a number.
ghost use Rattle.std.specs.Prelude.{◌≡◌, ◌<◌, ◌+◌, ◌^◌, ◌↔◌, [], length, IsTrue, IfOk, Some, None, slice_set, replicate};
ghost use Rattle.index_kit.specs.Cells.{HasGap, cell_at, mark_in, number_in};

use std::alloc::{AllocError, Global};
use std::marker::Model;

// The mark of a free cell.
pub(crate) const FREE: u8 = 0;

// The least mark of a cell that isn't free.
pub(crate) const HELD: u8 = 128;

// Contracts see the list of cells. Marks and numbers lie apart, since most cells that a search
// passes are told by their marks alone.
#[derive(Debug, Drop)]
pub(crate) struct Cells {
    marks: Vec<u8>,
    numbers: Vec<u32>,
}

impl Model for Cells {
    ghost use Rattle.std.specs.Prelude.{◌≡◌, ℕ, List, Option, length};
    ghost use Rattle.index_kit.specs.Cells.{cells_of};

    ghost Value = { List (Option (ℕ × ℕ)) };

    ghost view = { λ c. cells_of c.marks.items c.numbers.items };

    ghost invariant = { λ c. length c.numbers.items ≡ length c.marks.items };
}

impl Cells {
    // No cells. It allocates nothing.
    pub(crate) fn new(alloc: Global) -> Cells
        ensures { result ≡ [] }
    {
        Cells {
            marks: Vec::new(alloc),
            numbers: Vec::new(alloc),
        }
    }

    // So many free cells.
    pub(crate) fn with_len(alloc: Global, len: usize) -> Result<Cells, AllocError>
        ensures { IfOk result (λ cells. cells ≡ replicate len None) }
    {
        Ok(Cells {
            marks: vec![in alloc; FREE; len]?,
            numbers: vec![in alloc; 0; len]?,
        })
    }

    pub(crate) fn len(&self) -> usize
        ensures { result ≡ length self.now }
    {
        self.marks.len()
    }

    // The mark in a cell, or `FREE`.
    pub(crate) fn mark(&self, at: usize) -> u8
        requires { at < length self.now }
        ensures { result ≡ mark_in (cell_at self.now at) }
    {
        self.marks[at]
    }

    // Whether this cell or the next is free. Two marks are tested as one number, since a branch on
    // each would be guessed wrong too often.
    pub(crate) fn has_gap(&self, at: usize) -> bool
        requires { at + 1 < length self.now }
        ensures { IsTrue result ↔ HasGap self.now at }
    {
        self.marks[at] & self.marks[at + 1] < HELD
    }

    // The number in a cell, if it isn't free.
    pub(crate) fn number(&self, at: usize) -> Option<u32>
        requires { at < length self.now }
        ensures { result ≡ number_in (cell_at self.now at) }
    {
        if self.marks[at] == FREE {
            return None;
        }
        Some(self.numbers[at])
    }

    // Writes a mark and a number into a cell.
    pub(crate) fn fill(&mut self, at: usize, mark: u8, number: u32)
        requires within { at < length self.old }
        requires marked { 0 < mark }
        ensures { self.new ≡ slice_set self.old at (Some (mark, number)) }
    {
        self.marks[at] = mark;
        self.numbers[at] = number;
    }

    // Makes a cell free.
    pub(crate) fn clear(&mut self, at: usize)
        requires { at < length self.old }
        ensures { self.new ≡ slice_set self.old at None }
    {
        self.marks[at] = FREE;
    }
}
