// The image of a case.
ghost use Rattle.std.specs.Prelude.{◌≡◌, false, IfOk};

use crate::script_fault::ScriptFault;
use case_file::Case;
use case_image::image_text;
use mont_base::MemSource;
use mont_image::{Image, read_image};
use recover::migrate;
use std::alloc::Global;

/// The image, as images are now.
pub fn told_image(alloc: Global, case: &Case) -> Result<Image, ScriptFault>
    ensures { IfOk result (λ image. image.old ≡ false) }
{
    let mut source = MemSource::new(image_text(alloc, case)?, 4096, Vec::new(alloc));
    let Ok(image) = read_image(alloc, &mut source) else {
        return Err(ScriptFault::Image);
    };
    if !image.old {
        return Ok(image);
    }
    match migrate(alloc, &image) {
        Ok(image) => Ok(image),
        Err(_refusal) => Err(ScriptFault::Image),
    }
}
