// Where the callers of a store look for each other: to begin together, so that none is done before
// the next begins, and to see that the others are done.
use std::sync::atomic::{AtomicU64, Ordering};

// How many of the callers have come, and how many of these have left.
#[derive(Drop)]
pub(crate) struct Meeting {
    callers: u64,
    come: AtomicU64,
    left: AtomicU64,
}

impl Meeting {
    // The meeting of so many callers.
    pub(crate) fn new(callers: u64) -> Meeting {
        Meeting {
            callers,
            come: AtomicU64::new(0),
            left: AtomicU64::new(0),
        }
    }

    // Comes, and looks for the others, so often at most. Tells whether all are there.
    pub(crate) fn come(&self, looks: u64) -> bool {
        self.come.fetch_add(1, Ordering::SeqCst);
        reaches(&self.come, self.callers, looks)
    }

    // Leaves.
    pub(crate) fn leave(&self) {
        self.left.fetch_add(1, Ordering::SeqCst);
    }

    // Looks for whether all others have left, so often at most.
    pub(crate) fn is_left_alone(&self, looks: u64) -> bool {
        reaches(&self.left, self.callers.saturating_sub(1), looks)
    }
}

// Whether a count gets to a number within so many looks.
fn reaches(count: &AtomicU64, number: u64, looks: u64) -> bool {
    (0..looks).any(|_look| count.load(Ordering::SeqCst) >= number)
}
