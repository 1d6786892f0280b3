// What recovery finds in an image.
ghost use Rattle.std.specs.Prelude.{◌≡◌, ◌≤◌, false, IfOk};
ghost use Rattle.recovery_cases.specs.FoundTexts.{IsFound, IsTextOfContents};

use crate::tellings::{told_accepted, told_fault};
use case_file::Unanswered;
use job_text::write_contents;
use mont_base::Layout;
use mont_image::Image;
use recover::{ImageFault, Recovered, recover};
use std::alloc::{AllocError, Global};
use std::thread::Threads;

/// What recovery finds.
#[derive(Drop)]
pub enum Found {
    /// The first fault of the image.
    Faulty { fault: ImageFault },
    /// How many slots are beyond the cut, and the text of the contents.
    Accepted { lost: u64, contents: Vec<u8> },
}

/// What is told of what recovery with so many workers finds.
pub fn told_by(
    rt: &(impl Threads + Sync),
    alloc: Global,
    image: &Image,
    workers: u64,
) -> Result<Vec<u8>, Unanswered>
    requires workers { (1 ≤ workers) × (workers ≤ 64) }
    requires new { image.now.old ≡ false }
{
    match found_by(rt, alloc, image, workers)? {
        Found::Faulty { fault } => told_fault(alloc, fault),
        Found::Accepted { lost, contents } => told_accepted(alloc, lost, contents.as_slice()),
    }
}

/// How many slots of an image that recovery accepts are beyond the cut, and the text of its
/// contents.
pub fn accepted(
    rt: &(impl Threads + Sync),
    alloc: Global,
    image: &Image,
) -> Result<(u64, Vec<u8>), Unanswered>
    requires { image.now.old ≡ false }
{
    match found_by(rt, alloc, image, 1)? {
        Found::Accepted { lost, contents } => Ok((lost, contents)),
        Found::Faulty { .. } => Err(Unanswered::Unclear { head: "image" }),
    }
}

/// What recovery with so many workers finds.
pub fn found_by(
    rt: &(impl Threads + Sync),
    alloc: Global,
    image: &Image,
    workers: u64,
) -> Result<Found, AllocError>
    requires workers { (1 ≤ workers) × (workers ≤ 64) }
    requires new { image.now.old ≡ false }
    ensures { IfOk result (IsFound image.now.layout image.now.words) }
{
    match recover(rt, alloc, image, workers, 1) {
        Ok(store) => Ok(Found::Accepted {
            lost: store.lost(),
            contents: contents_text(alloc, image.layout, &store)?,
        }),
        Err(refusal) => match ImageFault::of_words(refusal) {
            Some(fault) => Ok(Found::Faulty { fault }),
            None => Err(AllocError),
        },
    }
}

// The text of the contents of a store, with its clock.
fn contents_text(alloc: Global, layout: Layout, store: &Recovered) -> Result<Vec<u8>, AllocError>
    requires { layout ≡ store.now.heap.opening.layout }
    ensures { IfOk result (λ text. IsTextOfContents layout store.now.heap.opening.words
        text.items) }
{
    write_contents(alloc, layout, store.clock(), store.contents())
}
