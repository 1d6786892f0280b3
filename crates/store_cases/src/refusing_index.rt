// An index of a kind that the library lacks: it makes room so many times, and then refuses it.
use index_kit::{Index, SortedIndex};
use mont_base::Text;
use std::alloc::{AllocError, Global};

/// A sorted index that refuses room in the end.
#[derive(Drop)]
pub struct RefusingIndex {
    index: SortedIndex,
    // How many times it still makes room.
    rooms: u64,
}

impl RefusingIndex {
    /// An empty one, which makes room so many times.
    pub fn new(alloc: Global, rooms: u64) -> RefusingIndex {
        RefusingIndex {
            index: SortedIndex::new(alloc),
            rooms,
        }
    }
}

impl Index for RefusingIndex {
    ghost places = { λ r. r.index.places };

    ghost spare = { λ r. r.index.spare };

    fn len(&self) -> u64 {
        self.index.len()
    }

    fn find(&self, key: Text) -> Option<u64> {
        self.index.find(key)
    }

    fn reserve(&mut self) -> Result<(), AllocError> {
        if self.rooms == 0 {
            return Err(AllocError);
        }
        self.rooms -= 1;
        self.index.reserve()
    }

    fn put(&mut self, key: Text, place: u64) -> Option<u64> {
        self.index.put(key, place)
    }

    fn remove(&mut self, key: Text) -> Option<u64> {
        self.index.remove(key)
    }
}
