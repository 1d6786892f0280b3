// How many records each epoch has.
ghost use Rattle.std.specs.Prelude.{◌≡◌, map, IfOk};
ghost use Rattle.std.specs.BTreeMap.{IsOrdered};
ghost use Rattle.std.specs.Ordering.{nat_cmp};
ghost use Rattle.image_info.specs.EpochCounts.{AreEpochs, HasNumbers, count_of};

use mont_base::{Epoch, Held};
use std::alloc::{AllocError, Global};
use std::collections::BTreeMap;

/// How many records an epoch has.
#[derive(Clone, Copy, Debug, PartialEq, Eq)]
pub(crate) struct EpochCount {
    pub epoch: Epoch,
    pub records: u64,
}

/// The epochs of the records, each once, by rising epoch.
pub(crate) fn epoch_counts(alloc: Global, records: &[Held]) -> Result<Vec<EpochCount>, AllocError>
    ensures { IfOk result (λ v. AreEpochs records.now v.items) }
{
    let numbers = numbers_of_epochs(alloc, records)?;
    counts_in(alloc, &numbers)
}

// What is told of the entries of a map.
fn counts_in(alloc: Global, numbers: &BTreeMap<Epoch, u64>) -> Result<Vec<EpochCount>, AllocError>
    ensures counts { IfOk result (λ v. v.items ≡ map count_of numbers.now.entries) }
    ensures ordered { IsOrdered nat_cmp numbers.now }
{
    numbers
        .iter()
        .map(|(epoch, number)| EpochCount {
            epoch: *epoch,
            records: *number,
        })
        .collect(alloc)
}

// The number of records of each epoch that has some.
fn numbers_of_epochs(alloc: Global, records: &[Held]) -> Result<BTreeMap<Epoch, u64>, AllocError>
    ensures { IfOk result (λ m. HasNumbers m records.now) }
{
    let mut numbers = BTreeMap::new(alloc);
    for held in records {
        let epoch = held.label.epoch;
        let number = numbers.get(&epoch).copied().unwrap_or(0);
        numbers.insert(epoch, number + 1)?;
    }
    Ok(numbers)
}
