// The step by which a caller learns what is durable.
ghost use Rattle.std.specs.Prelude.{◌≡◌, length, IfOk, OnErr};
ghost use Rattle.heap_rule.specs.Plays.{IsDurable};
ghost use Rattle.heap_rule.specs.Views.{caller_saw};
ghost use Rattle.heap.specs.GateAsked.{IsAskedOnce};

use crate::heap::Heap;
use crate::seats::Ticket;
use heap_rule::SeesDurable;
use mont_base::{Cut, Epoch, Gate, Sequence};

impl Heap {
    /// Loads the durable clock. Where it is at least 2 above the ticket's newest epoch, all that
    /// the ticket has seen is known to be durable.
    pub fn seen_durable<G: Gate>(&self, ticket: &mut Ticket, gate: &mut G) -> Result<Epoch, Cut>
        requires heap { ticket.old.table ≡ self.now.table }
        ensures gate { IsAskedOnce G.cuts G.endless G.asked gate.old gate.new result }
        ensures ok { IfOk result (λ clock. ticket.new
            ≡ record { table = ticket.old.table; known = caller_saw ticket.old.known clock }) }
        ensures clock { IfOk result (λ clock. IsDurable ticket.old.known.part.durable clock) }
        ensures cut { OnErr result (ticket.new ≡ ticket.old) }
    {
        gate.step()?;
        let place = self.durable_clock();
        let clock = self
            .table
            .shared
            .load::<SeesDurable>(&mut ticket.seat, place);
        ticket.durable = clock;
        if ticket.newest <= clock - 2 {
            assign_each(&mut ticket.synced, &ticket.fronts);
        }
        Ok(clock)
    }
}

// Makes a list the same as another one that is as long.
fn assign_each(numbers: &mut Sequence<u64>, others: &Sequence<u64>)
    requires { length numbers.old ≡ length others.now }
    ensures { numbers.new ≡ others.now }
{
    for place in 0..others.len() {
        numbers.set(place, others.as_slice()[place as usize]);
    }
}
