// What a crash leaves of a store in which nothing was done but closing slots beyond the cut.
ghost use Rattle.recover.specs.StoppedWords.{UnusedStoresKeepBase};

/// Every image that a crash permits of such a store has the clock and the structures of the image
/// with which it was opened.
pub fn unused_stores_keep_base()
    ensures { UnusedStoresKeepBase }
{}
