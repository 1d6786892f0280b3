// What an operation on a queue is answered, the change that it makes, and how the items follow it.
ghost use Rattle.std.specs.Prelude.{◌≡◌, ◌<◌, IsTrue, slice_get};
ghost use Rattle.std.specs.Option.{option_and_then};
ghost use Rattle.std.specs.VecDeque.{deque_len, deque_capacity};
ghost use Rattle.slots.specs.Books.{Agrees};
ghost use Rattle.pqueue.specs.Queued.{queued_at};
ghost use Rattle.pqueue.specs.QueuePlan.{adds_item, items_behind, looked_up};

use crate::queued::{Queued, queued_at};
use mont_base::{Change, Op, Reply, Slot};
use slots::Region;
use std::collections::VecDeque;

// What an operation is answered that changes nothing.
pub(crate) fn look_up(items: &VecDeque<Queued>, op: &Op) -> Reply
    ensures { result ≡ looked_up items.now.items op.now }
{
    match *op {
        Op::Len { .. } => Reply::Count {
            number: items.len() as u64,
        },
        _ => Reply::Nothing,
    }
}

// The first item.
pub(crate) fn first_of(items: &VecDeque<Queued>) -> Option<Queued>
    ensures { result ≡ slice_get items.now.items 0 }
{
    items.front().copied()
}

// Whether an item comes in.
pub(crate) fn adds_item(change: &Option<Change>) -> bool
    ensures { result ≡ adds_item change.now }
{
    matches!(change, Some(Change::Insert { .. }))
}

// The items follow the change once its record is written, into this slot. What comes in finds room.
pub(crate) fn follow(
    region: &Region,
    items: &mut VecDeque<Queued>,
    change: &Option<Change>,
    slot: Option<Slot>,
)
    requires agrees { Agrees region.now }
    requires room { IsTrue (adds_item change.now)
        → deque_len items.old < deque_capacity items.old }
    ensures { items.new.items ≡ items_behind items.old.items change.now
        (option_and_then (queued_at region.now.seat.known.part.records) slot) }
{
    match change {
        Some(Change::Insert { .. }) => {
            if let Some(item) = written_at(region, slot) {
                items.push_back_reserved(item);
            }
        }
        Some(Change::Remove { .. }) => {
            items.pop_front();
        }
        Some(Change::Replace { .. }) | None => {}
    }
}

// The item that was written into a slot.
fn written_at(region: &Region, slot: Option<Slot>) -> Option<Queued>
    requires { Agrees region.now }
    ensures { result
        ≡ option_and_then (queued_at region.now.seat.known.part.records) slot }
{
    queued_at(region, slot?)
}
