// What a caller works with.
ghost use Rattle.std.specs.Prelude.{◌≡◌, ◌↔◌, ◌≤◌, [], IsTrue, OnOk, OnErr, vec_capacity};
ghost use Rattle.heap_pass.specs.Kept.{StandLast, IsWhole};
ghost use Rattle.heap_pass.specs.Spare.{spare_of};

use crate::padding::Padding;
use heap::Ticket;
use mont_base::{Gate, Receipt};
use std::alloc::{AllocError, Global};

// Receipts are kept by the hundred thousand, and each is copied under its unit's lock.
const _: () = prove!(size_of::<Receipt>() <= 168);

/// A caller's ticket, the gate that its steps ask, and the receipts of its answered calls: all of
/// them, or those since it forgot the earlier ones.
///
/// A step call takes the ticket and the gate each by itself. One that answers the caller gives the
/// receipt that the ticket then shows, and it has to be kept before the pass is used again: by
/// `receipts.push_reserved`, into room that was reserved before the call.
///
/// Callers' passes lie side by side in a list. What a caller uses of its own stands in no cache
/// line of another's.
#[derive(Drop)]
pub struct Pass<G: Gate> {
    pub ticket: Ticket,
    pub gate: G,
    pub receipts: Vec<Receipt>,
    pub apart: Padding,
    pub ghost kept: { StandLast ticket.known.part.receipts receipts.items },
}

impl<G: Gate> Pass<G> {
    /// The pass of a caller, without the receipts of calls that were answered before. It allocates
    /// nothing.
    pub fn new(alloc: Global, ticket: Ticket, gate: G) -> Pass<G>
        ensures ticket { result.ticket ≡ ticket }
        ensures gate { result.gate ≡ gate }
        ensures receipts { result.receipts.items ≡ [] }
    {
        Pass {
            ticket,
            gate,
            receipts: Vec::new(alloc),
            apart: Padding::new(),
        }
    }

    /// Makes room for a receipt. Where memory is refused there is as much room as before.
    pub fn reserve(&mut self) -> Result<(), AllocError>
        ensures ticket { self.new.ticket ≡ self.old.ticket }
        ensures gate { self.new.gate ≡ self.old.gate }
        ensures receipts { self.new.receipts.items ≡ self.old.receipts.items }
        ensures ok { OnOk result (1 ≤ spare_of self.new.receipts) }
        ensures grows { spare_of self.old.receipts ≤ spare_of self.new.receipts }
        ensures err { OnErr result (spare_of self.new.receipts ≡ spare_of self.old.receipts) }
    {
        self.receipts.reserve(1)
    }

    /// Makes room for two receipts. Where memory is refused there is as much room as before.
    pub fn reserve_two(&mut self) -> Result<(), AllocError>
        ensures ticket { self.new.ticket ≡ self.old.ticket }
        ensures gate { self.new.gate ≡ self.old.gate }
        ensures receipts { self.new.receipts.items ≡ self.old.receipts.items }
        ensures ok { OnOk result (2 ≤ spare_of self.new.receipts) }
        ensures grows { spare_of self.old.receipts ≤ spare_of self.new.receipts }
        ensures err { OnErr result (spare_of self.new.receipts ≡ spare_of self.old.receipts) }
    {
        self.receipts.reserve(2)
    }

    /// Drops the receipts that it has, and keeps their room. Its ticket still counts them.
    pub fn forget(&mut self)
        ensures ticket { self.new.ticket ≡ self.old.ticket }
        ensures gate { self.new.gate ≡ self.old.gate }
        ensures receipts { self.new.receipts.items ≡ [] }
        ensures room { vec_capacity self.new.receipts ≡ vec_capacity self.old.receipts }
    {
        self.receipts.clear();
    }

    /// Whether it has the receipts of all answered calls of its ticket.
    #[tactic(auto, using(crate::proofs::Kept::whole_by_length))]
    pub fn is_whole(&self) -> bool
        ensures { IsTrue result ↔ IsWhole self.now.ticket self.now.receipts.items }
    {
        self.receipts.len() as u64 == self.ticket.calls()
    }
}
