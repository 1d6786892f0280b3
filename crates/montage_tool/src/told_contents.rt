// What an image holds is told.
ghost use Rattle.std.specs.Prelude.{◌+◌, ◌≤◌, ◌≢◌, List, ℕ, Option, IfOk, IfErr, Err};
ghost use Rattle.mont_image.specs.ImageReader.{parts_of};
ghost use Rattle.montage_tool.specs.Devices.{IsRead, ended_as, source_seen};
ghost use Rattle.montage_tool.specs.Inputs.{IsImageOf};
ghost use Rattle.montage_tool.specs.Service.{AreContents, RefusesImage};

use crate::read_inputs::image_of;
use crate::status::{SourceName, Status};
use job_store::{contents_in, migrated_if_old};
use job_text::write_contents;
use mont_base::Source;
use mont_image::{IMAGE_BYTES, Image};
use std::alloc::Global;
use std::thread::Threads;

// The text of what recovery rebuilds of the image that a source gives.
pub(crate) fn contents_of<R: AllocGlobal + Threads + Sync, I: Source>(
    rt: &R,
    image: &mut I,
    workers: u64,
) -> Result<Vec<u8>, Status>
    requires { (1 ≤ workers) × (workers ≤ 64) }
    ensures told { IfOk result (λ text. AreContents (I.left image.old) text.items) }
    ensures refused { IfErr result (RefusesImage (I.left image.old)) }
    ensures source { IsRead (IMAGE_BYTES + 1) SourceName.Image (source_seen I.Source image.old)
        (source_seen I.Source image.new) (ended_as result) }
{
    let image = image_of(rt.alloc(), image)?;
    contents_text(rt, rt.alloc(), image, workers)
}

// The text of what recovery rebuilds of an image.
fn contents_text<R: Threads + Sync>(
    rt: &R,
    alloc: Global,
    image: Image,
    workers: u64,
) -> Result<Vec<u8>, Status>
    requires { (1 ≤ workers) × (workers ≤ 64) }
    ensures told { (left : Option (List ℕ)) → IsImageOf left (parts_of image)
        → IfOk result (λ text. AreContents left text.items) }
    ensures refused { (left : Option (List ℕ)) → IsImageOf left (parts_of image)
        → IfErr result (RefusesImage left) }
    ensures read { (which : SourceName) → result ≢ Err (Status.ReadFault which) }
{
    let image = migrated_if_old(alloc, image)?;
    let contents = contents_in(rt, alloc, &image, workers)?;
    Ok(write_contents(alloc, image.layout, image.clock(), &contents)?)
}
