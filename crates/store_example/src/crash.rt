// What a crash leaves of a store that was stopped.
ghost use Rattle.std.specs.Prelude.{IfOk};
ghost use Rattle.plain.specs.States.{states_of};
ghost use Rattle.store_example.specs.Outlived.{IsStore, OutlivesStop};

use mont_image::pick;
use plain::{Contents, recover};
use std::alloc::{AllocError, Global};
use store_stop::Stopped;

// Picks the image of the durable words, and rebuilds the structures from it.
pub(crate) fn recover_after_crash(alloc: Global, stopped: &Stopped) -> Result<Contents, AllocError>
    requires { IsStore stopped.now }
    ensures { IfOk result (λ contents. OutlivesStop stopped.now (states_of contents)) }
{
    let image = pick(alloc, &stopped.words, 0)?;
    recover(alloc, stopped.words.layout, image.words.as_slice())
}
