// What a refusal says of an image.
ghost use Rattle.image_units.specs.FirstRefusal.{RefusalsAreOne, RefusedImagesAreMalformed};

/// The law that an image which is refused, but for want of memory, isn't one that recovery accepts.
pub fn refused_images_are_malformed()
    ensures { RefusedImagesAreMalformed }
{}

/// The law that an image has one first refusal at most, but for want of memory.
pub fn refusals_are_one()
    ensures { RefusalsAreOne }
{}
