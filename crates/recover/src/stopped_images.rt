// That no image which a crash permits of a stopped store is refused but for want of memory.
ghost use Rattle.recover.specs.StoppedImages.{StoppedStoresAreRecovered, SweptStoresAreRecovered};

/// Recovery refuses no image of a store that was stopped, but for want of memory.
pub fn stopped_stores_are_recovered()
    ensures { StoppedStoresAreRecovered }
{}

/// Neither does it where the store was opened from an image and stopped, wherever its sweep was
/// cut.
pub fn swept_stores_are_recovered()
    ensures { SweptStoresAreRecovered }
{}
