// How a queue is rebuilt from the live objects of its region.
ghost use Rattle.std.specs.Prelude.{◌≡◌, IfOk, filter_map};
ghost use Rattle.std.specs.List.Sorted.{IsPermutation, IsNonDecreasingBy};
ghost use Rattle.mont_base.specs.State.{State};
ghost use Rattle.mont_base.specs.Structure.{IsStructure};
ghost use Rattle.mont_base.specs.Versions.{live_objects};
ghost use Rattle.slots.specs.Books.{Agrees};
ghost use Rattle.pqueue.specs.PQueue.{IsOfQueue, HoldsItems};
ghost use Rattle.pqueue.specs.Queued.{queued_of, serial_in};

use crate::pqueue::PQueue;
use crate::queued::{Queued, queued_of};
use mont_base::Object;
use slots::Region;
use std::alloc::{AllocError, Global};
use std::collections::VecDeque;

impl PQueue {
    /// The queue of a region whose live objects these are, by rising slot. They make a queue.
    pub fn rebuild(alloc: Global, region: Region, objects: &[Object]) -> Result<PQueue, AllocError>
        requires agrees { Agrees region }
        requires of_queue { IsOfQueue region }
        requires objects { objects.now ≡ live_objects region.seat.known.part.records }
        requires structure { (state : State)
            × IsStructure region.books.layout region.books.unit objects.now state }
        ensures region { IfOk result (λ q. q.region ≡ region) }
        ensures items { IfOk result (λ q. HoldsItems q.region q.items) }
    {
        let items = sorted_items(alloc, objects)?;
        Ok(PQueue {
            region,
            items: VecDeque::from_vec(items),
        })
    }
}

// The items that objects hold, by rising serial.
fn sorted_items(alloc: Global, objects: &[Object]) -> Result<Vec<Queued>, AllocError>
    ensures same { IfOk result (λ sorted.
        IsPermutation (filter_map queued_of objects.now) sorted.items) }
    ensures rising { IfOk result (λ sorted. IsNonDecreasingBy serial_in sorted.items) }
{
    let mut items = items_of(alloc, objects)?;
    items.sort_unstable_by_key(|queued| queued.serial);
    Ok(items)
}

// The items that objects hold, in their order.
fn items_of(alloc: Global, objects: &[Object]) -> Result<Vec<Queued>, AllocError>
    ensures { IfOk result (λ items. items.items ≡ filter_map queued_of objects.now) }
{
    objects
        .iter()
        .filter_map(|object| queued_of(object))
        .collect(alloc)
}
