// Where the answer of an operation stands, and how its receipt is kept.
ghost use Rattle.std.specs.Prelude.{◌≡◌, ◌≤◌, ◌+◌, [], ◌∷◌, ◌++◌};
ghost use Rattle.heap.specs.NextAnswer.{next_answer, receipt_at};
ghost use Rattle.heap_pass.specs.Spare.{spare_of};
ghost use Rattle.slots.specs.Books.{Agrees, books_showing};
ghost use Rattle.slots.specs.Putting.{HasJustAnswered};

use heap::{NextAnswer, Ticket};
use mont_base::{Epoch, Op, Receipt, Reply};
use slots::Region;

// The next answer of the unit to the caller.
#[inline(always)]
pub(crate) fn answer_place(region: &Region, ticket: &Ticket) -> NextAnswer
    requires { Agrees region.now }
    ensures { result ≡ next_answer region.now.seat.known ticket.now.known }
{
    NextAnswer {
        unit: region.unit(),
        place: region.places(),
        caller: ticket.number(),
        call: ticket.calls(),
    }
}

// The receipt of the answer that stands there is kept after the others, and the region follows it.
#[inline(always)]
pub(crate) fn keep(
    region: &mut Region,
    receipts: &mut Vec<Receipt>,
    place: NextAnswer,
    op: &Op,
    reply: &Reply,
    epoch: Epoch,
)
    requires answered { HasJustAnswered region.old (receipt_at place op.now reply.now epoch) }
    requires spare { 1 ≤ spare_of receipts.old }
    ensures seat { region.new.seat ≡ region.old.seat }
    ensures books { region.new.books
        ≡ books_showing region.old.books region.old.seat.known.part }
    ensures agrees { Agrees region.new }
    ensures receipts { receipts.new.items
        ≡ receipts.old.items ++ receipt_at place op.now reply.now epoch ∷ [] }
    ensures spare { spare_of receipts.new + 1 ≡ spare_of receipts.old }
{
    let receipt = place.receipt(op, reply, epoch);
    push_copy(receipts, &receipt);
    region.left(&receipt);
}

// A copy of a value stands after the others, in room that was made before.
#[inline(always)]
fn push_copy<T: Copy>(values: &mut Vec<T>, value: &T)
    requires { 1 ≤ spare_of values.old }
    ensures items { values.new.items ≡ values.old.items ++ value.now ∷ [] }
    ensures spare { spare_of values.new + 1 ≡ spare_of values.old }
{
    values.push_reserved(*value);
}
