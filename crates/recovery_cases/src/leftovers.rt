// What is left of a store that was opened from an image and stopped in its sweep, or after it.
ghost use Rattle.std.specs.Prelude.{◌≡◌, ◌<◌, ◌≤◌, ℕ, List, false, IfOk};
ghost use Rattle.mont_base.specs.Image.{IsPermitted};
ghost use Rattle.recover.specs.StoppedWords.{HoldsBase};
ghost use Rattle.recovery_cases.specs.Leftovers.{HoldsSame};

use case_file::Unanswered;
use mont_base::Fuel;
use mont_image::{Image, pick};
use recover::{RecoverRefusal, Recovered, recover};
use std::alloc::{AllocError, Global};
use std::thread::Threads;

/// The store of an image that recovery accepts, with one caller.
pub fn opened(
    rt: &(impl Threads + Sync),
    alloc: Global,
    image: &Image,
) -> Result<Recovered, Unanswered>
    requires { image.now.old ≡ false }
    ensures { IfOk result (λ store. store.heap.opening ≡ record {
      layout = image.now.layout;
      words = image.now.words;
      callers = 1;
    }) }
{
    match recover(rt, alloc, image, 1, 1) {
        Ok(store) => Ok(store),
        Err(RecoverRefusal::Memory) => Err(Unanswered::Memory),
        Err(_) => Err(Unanswered::Unclear { head: "image" }),
    }
}

/// The image that a crash leaves of the store of an image after a sweep with so many steps, as a
/// mask picks it, and whether the sweep was cut.
pub fn left_by(
    rt: &(impl Threads + Sync),
    alloc: Global,
    image: &Image,
    steps: u64,
    mask: u64,
) -> Result<(bool, Image), Unanswered>
    requires { image.now.old ≡ false }
    ensures { IfOk result (λ left. HoldsSame image.now left.1) }
{
    let mut store = opened(rt, alloc, image)?;
    let cut = store.sweep(&mut Fuel::new(steps)).is_err();
    let left = picked(alloc, store, mask)?;
    Ok((cut, left))
}

// The image that a mask picks of the words of a store.
fn picked(alloc: Global, store: Recovered, mask: u64) -> Result<Image, AllocError>
    ensures layout { IfOk result (λ image. image.layout ≡ store.heap.opening.layout) }
    ensures new { IfOk result (λ image. image.old ≡ false) }
    ensures base { IfOk result (λ image. HoldsBase store.heap.opening.layout
        store.heap.opening.words image.words) }
{
    let words = store.stop(alloc)?;
    pick(alloc, &words, mask)
}
