// With what a store opens, as far as a report of a job speaks of it.
ghost use Rattle.job_store.specs.Base.{BasesAreOne, FreshStoresHoldNothing};

/// The law that a store opens with one base from an image.
pub fn bases_are_one()
    ensures { BasesAreOne }
{}

/// The law that a store which was never used opens with nothing.
pub fn fresh_stores_hold_nothing()
    ensures { FreshStoresHoldNothing }
{}
