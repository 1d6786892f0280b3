// An item that stands in a queue, with where its record is.
ghost use Rattle.std.specs.Prelude.{◌≡◌};
ghost use Rattle.pqueue.specs.Queued.{queued_in, queued_of, queued_at};
ghost use Rattle.slots.specs.Books.{Agrees};

use mont_base::{BODY, Object, Slot};
use payload::item_in;
use slots::Region;

/// An item that stands in a queue, with the identity and the slot of its record. Items stand by
/// rising serial.
#[derive(Clone, Copy, Debug, PartialEq, Eq)]
pub struct Queued {
    pub serial: u64,
    pub identity: u64,
    pub slot: Slot,
    pub item: u64,
}

// The item that a body holds; none where it isn't an item's.
fn queued_in(body: &[u64; BODY], identity: u64, slot: Slot) -> Option<Queued>
    ensures { result ≡ queued_in body.now identity slot }
{
    let (serial, item) = item_in(body)?;
    Some(Queued {
        serial,
        identity,
        slot,
        item,
    })
}

// The item that an object holds.
pub(crate) fn queued_of(object: &Object) -> Option<Queued>
    ensures { result ≡ queued_of object.now }
{
    queued_in(&object.body, object.identity, object.slot)
}

// The item that the record in a slot holds.
pub(crate) fn queued_at(region: &Region, slot: Slot) -> Option<Queued>
    requires { Agrees region.now }
    ensures { result ≡ queued_at region.now.seat.known.part.records slot }
{
    let held = region.find_record(slot)?;
    queued_in(&held.body, held.label.identity, held.slot)
}
