// What recovery finds in an image that a crash leaves of a store.
ghost use Rattle.std.specs.Prelude.{◌≡◌, false, IfOk};
ghost use Rattle.image_units.specs.declared.recovery_refusal.RecoverRefusal.TheVariants as refusals;
ghost use Rattle.mont_base.specs.Image.{IsPermitted, IsRecovered};
ghost use Rattle.plain.specs.States.{states_of};
ghost use Rattle.bank_store.specs.BankEnd.{AcceptsImages};

use image_units::{FoundImage, RecoverRefusal, find_units};
use mont_image::Image;
use plain::Contents;
use std::alloc::{AllocError, Global};
use std::thread::Threads;
use store_stop::Stopped;

// How many workers look for the records of an image.
const WORKERS: u64 = 4;

// What recovery rebuilds of the image. It refuses none of a store that was stopped.
pub(crate) fn contents_left<R: Threads + Sync>(
    rt: &R,
    alloc: Global,
    image: &Image,
    _stopped: &Stopped,
) -> Result<Contents, AllocError>
    requires accepts { AcceptsImages _stopped.now }
    requires layout { image.now.layout ≡ _stopped.now.words.layout }
    requires permitted { IsPermitted _stopped.now.words.cur _stopped.now.words.dur image.now.words }
    requires new { image.now.old ≡ false }
    ensures { IfOk result (λ c. IsRecovered image.now.layout image.now.words (states_of c)) }
{
    match find_units(rt, alloc, image, WORKERS) {
        Ok(FoundImage { units: _, contents }) => Ok(contents),
        Err(why) => Err(out_of_memory(why)),
    }
}

// A refusal for want of memory.
fn out_of_memory(_why: RecoverRefusal) -> AllocError
    requires { _why ≡ refusals.Memory }
{
    AllocError
}
