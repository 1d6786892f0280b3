// Where the next answer of a unit to a caller stands.
ghost use Rattle.std.specs.Prelude.{◌≡◌};
ghost use Rattle.heap.specs.NextAnswer.{next_answer, receipt_at};

use crate::seats::{Ticket, UnitSeat};
use mont_base::{Entry, Epoch, Op, Receipt, Reply, Unit};

/// What a receipt tells beside the operation, its reply and its epoch. It is known before the
/// caller is answered.
#[derive(Clone, Copy, Debug, PartialEq, Eq)]
pub struct NextAnswer {
    pub unit: Unit,
    /// How many entries the unit's history has.
    pub place: u64,
    /// The caller's number.
    pub caller: u64,
    /// How many of its calls were answered.
    pub call: u64,
}

impl NextAnswer {
    // Of the unit and the caller of these seats.
    pub(crate) fn of(seat: &UnitSeat, ticket: &Ticket) -> NextAnswer
        ensures { result ≡ next_answer seat.now.known ticket.now.known }
    {
        NextAnswer {
            unit: seat.unit,
            place: seat.entries,
            caller: ticket.number,
            call: ticket.calls,
        }
    }

    /// The receipt of an operation that is answered there.
    #[inline]
    pub fn receipt(&self, op: &Op, reply: &Reply, epoch: Epoch) -> Receipt
        ensures { result ≡ receipt_at self.now op.now reply.now epoch }
    {
        let entry = Entry {
            caller: self.caller,
            call: self.call,
            op: *op,
            reply: *reply,
            epoch,
        };
        Receipt {
            unit: self.unit,
            place: self.place,
            entry,
        }
    }
}
