// What recovery finds of a unit in an image, for the unit's region to begin with.
ghost use Rattle.region_laws.specs.FoundImages.{ImagesAreFound};

/// What recovery finds in an image that it accepts is what regions can begin with.
pub fn images_are_found()
    ensures { ImagesAreFound }
{}
