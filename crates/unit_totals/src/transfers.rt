// Transfers between map units, and what recovery finds after a crash.
ghost use Rattle.unit_totals.specs.Transfers.{StoppedStoresKeepTotals};

/// Where all that the callers of a store changed is an opening and transfers, each of one epoch,
/// recovery rebuilds the opening's total from each image in whose cut the opening is.
pub fn stopped_stores_keep_totals()
    ensures { StoppedStoresKeepTotals }
{}
