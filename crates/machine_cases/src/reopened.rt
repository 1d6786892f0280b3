// A heap that is opened with the words of an image, and stopped.
use crate::line_fault::LineFault;
use heap::Heap;
use mont_base::{Layout, Words};
use plain::is_well_formed;
use std::alloc::Global;

/// The words with which a heap of these words stops.
pub fn reopened(alloc: Global, layout: Layout, image: &[u64]) -> Result<Words, LineFault> {
    if !is_well_formed(alloc, layout, image)? {
        return Err(LineFault::NotAllowed);
    }
    let (heap, seats) = Heap::of_words(alloc, layout, image, 2)?;
    Ok(heap.stop(alloc, seats)?)
}
