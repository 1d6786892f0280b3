// What one caller has seen goes to another.
ghost use Rattle.std.specs.Prelude.{◌≡◌, IfOk};
ghost use Rattle.heap_rule.specs.SeenEntries.{SeesBoth};
ghost use Rattle.heap_rule.specs.Views.{caller_heard, note_of_caller};
ghost use Rattle.caller.specs.Telling.{TakesGreater};

use heap::{Heap, News};
use heap_pass::Pass;
use mont_base::Gate;
use std::alloc::{AllocError, Global};

/// What the caller has seen, to be carried to another. The pass stays as it is.
pub fn tell<G: Gate>(alloc: Global, heap: &Heap, pass: &mut Pass<G>) -> Result<News, AllocError>
    requires { pass.old.ticket.table ≡ heap.now.table }
    ensures news { IfOk result (λ news. news ≡ record {
      table = heap.now.table;
      known = note_of_caller pass.old.ticket.known;
    }) }
    ensures ticket { pass.new.ticket ≡ pass.old.ticket }
    ensures gate { pass.new.gate ≡ pass.old.gate }
    ensures receipts { pass.new.receipts ≡ pass.old.receipts }
{
    heap.copy_ticket(alloc, &mut pass.ticket)
}

/// The caller has now seen what the other one had, beside what it had itself.
pub fn hear<G: Gate>(heap: &Heap, pass: &mut Pass<G>, news: News)
    requires pass { pass.old.ticket.table ≡ heap.now.table }
    requires news { news.table ≡ heap.now.table }
    ensures caller { pass.new.ticket ≡ record {
      table = pass.old.ticket.table;
      known = caller_heard pass.old.ticket.known news.known;
    } }
    ensures seen { SeesBoth pass.old.ticket.known.entries news.known.entries
        pass.new.ticket.known.entries }
    ensures greater { TakesGreater pass.old.ticket.known.part news.known.note
        pass.new.ticket.known.part }
    ensures gate { pass.new.gate ≡ pass.old.gate }
    ensures receipts { pass.new.receipts ≡ pass.old.receipts }
{
    heap.hear_news(&mut pass.ticket, news);
}
