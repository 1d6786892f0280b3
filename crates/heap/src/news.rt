// Notes of a caller that are carried to others.
ghost use Rattle.std.specs.Prelude.{◌≡◌, length, IfOk};
ghost use Rattle.core_steps.specs.Notes.{greater_fronts};
ghost use Rattle.heap_rule.specs.SeenEntries.{SeesBoth};
ghost use Rattle.heap_rule.specs.Views.{caller_heard, caller_view, news_view, note_of_caller, the_caller, the_note};

use crate::heap::Heap;
use crate::seats::Ticket;
use atomic_table::Seat;
use heap_rule::{Cell, CopiesCaller, HearsNews, TakesNotes, View};
use mont_base::{Epoch, Sequence};
use std::alloc::{AllocError, Global};
use std::marker::Model;

/// A note of a caller: what its ticket had seen when it was copied.
#[derive(Drop)]
pub struct News {
    seat: Seat<Cell, View>,
    fronts: Sequence<u64>,
    newest: Epoch,
    durable: Epoch,
}

impl Model for News {
    ghost use Rattle.heap_rule.specs.Views.{the_note};
    ghost use Rattle.heap.specs.NewsShown.{NewsShown, IsNews};

    ghost Value = { NewsShown };

    ghost view = { λ n. record { table = n.seat.table_id; known = the_note n.seat.me.0 } };

    ghost invariant = { λ n. IsNews n.seat.table_id n.fronts n.newest n.durable n.seat.me };
}

impl Heap {
    /// A note of the ticket, which stays as it is.
    pub fn copy_ticket(&self, alloc: Global, ticket: &mut Ticket) -> Result<News, AllocError>
        requires ticket { ticket.old.table ≡ self.now.table }
        ensures news { IfOk result (λ news. news ≡ record {
          table = self.now.table;
          known = note_of_caller ticket.old.known;
        }) }
        ensures caller { ticket.new ≡ ticket.old }
    {
        let fronts = copied(alloc, &ticket.fronts)?;
        let seat = self
            .table
            .shared
            .split_seat::<CopiesCaller>(&mut ticket.seat);
        Ok(News {
            seat,
            fronts,
            newest: ticket.newest,
            durable: ticket.durable,
        })
    }

    /// The ticket takes the note. What it has then seen begins with what it had seen, and with what
    /// the note had.
    pub fn hear_news(&self, ticket: &mut Ticket, news: News)
        requires ticket { ticket.old.table ≡ self.now.table }
        requires news { news.table ≡ self.now.table }
        ensures caller { ticket.new ≡ record {
          table = ticket.old.table;
          known = caller_heard ticket.old.known news.known;
        } }
        ensures seen { SeesBoth ticket.old.known.entries news.known.entries
            ticket.new.known.entries }
    {
        let News {
            seat,
            fronts,
            newest,
            durable,
        } = news;
        let shared = &self.table.shared;
        shared.join_seat::<TakesNotes>(&mut ticket.seat, seat);
        self.load_news(&mut ticket.seat);
        raise_each(&mut ticket.fronts, &fronts);
        ticket.newest = ticket.newest.max(newest);
        ticket.durable = ticket.durable.max(durable);
    }

    // The load by which the caller takes the note, by a seat that has both.
    fn load_news(&self, seat: &mut Seat<Cell, View>)
        requires heap { seat.old.table_id ≡ self.now.table }
        requires view { seat.old.me.0
            ≡ news_view (the_caller seat.old.me.0) (the_note seat.old.me.0) }
        ensures seat { seat.new.table_id ≡ seat.old.table_id }
        ensures view { seat.new.me
            ≡ (
              caller_view
                  (caller_heard (the_caller seat.old.me.0) (the_note seat.old.me.0)),
              seat.old.me.1,
            ) }
        ensures seen { SeesBoth (the_caller seat.old.me.0).entries (the_note seat.old.me.0).entries
            (caller_heard (the_caller seat.old.me.0) (the_note seat.old.me.0)).entries }
    {
        let _clock = self.table.shared.load::<HearsNews>(seat, 0);
    }
}

// The same numbers.
fn copied(alloc: Global, numbers: &Sequence<u64>) -> Result<Sequence<u64>, AllocError>
    ensures { IfOk result (λ copy. copy ≡ numbers.now) }
{
    let mut copy = Vec::new(alloc);
    copy.extend_from_slice(numbers.as_slice())?;
    Ok(Sequence::from_vec(copy))
}

// Makes each number the greater of itself and the one at its place in another list that is as long.
fn raise_each(numbers: &mut Sequence<u64>, others: &Sequence<u64>)
    requires { length numbers.old ≡ length others.now }
    ensures { numbers.new ≡ greater_fronts numbers.old others.now }
{
    for place in 0..others.len() {
        let number = numbers.as_slice()[place as usize];
        let other = others.as_slice()[place as usize];
        numbers.set(place, number.max(other));
    }
}
