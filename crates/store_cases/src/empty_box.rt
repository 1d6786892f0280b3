// The kinds of boxes that map units are given.
use crate::refusing_index::RefusingIndex;
use index_kit::{Index, ProbeIndex, SortedIndex};
use mont_base::MOST_UNITS;
use std::alloc::{AllocError, Global};

/// A kind of boxes.
pub trait EmptyBox: Index {
    /// An empty one. One of this program's own kind makes room so many times.
    fn empty(alloc: Global, rooms: u64) -> Self;
}

impl EmptyBox for SortedIndex {
    fn empty(alloc: Global, _rooms: u64) -> SortedIndex {
        SortedIndex::new(alloc)
    }
}

impl EmptyBox for ProbeIndex {
    fn empty(alloc: Global, _rooms: u64) -> ProbeIndex {
        ProbeIndex::new(alloc)
    }
}

impl EmptyBox for RefusingIndex {
    fn empty(alloc: Global, rooms: u64) -> RefusingIndex {
        RefusingIndex::new(alloc, rooms)
    }
}

/// A box for each map unit that a store may have.
pub fn boxes_of<I: EmptyBox>(alloc: Global, rooms: u64) -> Result<Vec<I>, AllocError> {
    let mut boxes = Vec::new(alloc);
    for _box in 0..MOST_UNITS {
        boxes.push(I::empty(alloc, rooms))?;
    }
    Ok(boxes)
}
