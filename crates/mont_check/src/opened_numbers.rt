// What the records with which a unit was opened tell of the numbers that its next changes get.
ghost use Rattle.std.specs.Prelude.{IfOk};
ghost use Rattle.mont_check.specs.OpenedNumbers.{IsOpening};

use crate::last_numbers::{greatest_identity, greatest_serial};
use mont_base::{Held, Object};
use payload::live_objects;
use std::alloc::{AllocError, Global};

/// What was in a unit when it was opened.
#[derive(Debug, Drop)]
pub struct Opening {
    /// The greatest identity of its records.
    pub identity: u64,
    /// The greatest serial of its items.
    pub serial: u64,
    pub objects: Vec<Object>,
}

impl Opening {
    /// What these records tell.
    pub fn new(alloc: Global, records: &[Held]) -> Result<Opening, AllocError>
        ensures { IfOk result (λ o. IsOpening records.now o) }
    {
        let objects = live_objects(alloc, records)?;
        Ok(Opening {
            identity: greatest_identity(records),
            serial: greatest_serial(objects.as_slice()),
            objects,
        })
    }
}
