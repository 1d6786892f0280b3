// A store that was opened from an image.
ghost use Rattle.std.specs.Prelude.{◌≡◌, ◌≤◌, ℕ, List, true, map, OnOk, IfOk, is_err};
ghost use Rattle.heap.specs.GateAsked.{IsAskedOften};
ghost use Rattle.mont_base.specs.Image.{IsPermitted, IsRecovered, clock_of};
ghost use Rattle.plain.specs.States.{states_of};
ghost use Rattle.recover.specs.Recovery.{ArePartsOf, lost_in};
ghost use Rattle.recover.specs.StoppedWords.{HoldsBase};
ghost use Rattle.store_stop.specs.Headline.{AreAllWords};

use crate::store_parts::Parts;
use crate::store_sweep::close_and_tell;
use heap::{AdvSeat, Heap, Seats, Ticket, UnitSeat};
use mont_base::{Cut, Epoch, Gate, Object, Words};
use plain::Contents;
use slots::Region;
use std::alloc::{AllocError, Global};
use std::marker::Model;

/// A store that was opened from an image: its heap, the regions of its units, and the tickets of
/// its callers.
///
/// Contracts see of which heap it is, and what its parts show. Its contents are what recovery
/// rebuilds of the words with which the heap opened.
#[derive(Drop)]
pub struct Recovered {
    pub(crate) heap: Heap,
    pub(crate) clock: Epoch,
    pub(crate) contents: Contents,
    pub(crate) objects: Vec<Vec<Object>>,
    pub(crate) regions: Vec<Region>,
    pub(crate) tickets: Vec<Ticket>,
    pub(crate) advancer: AdvSeat,
    pub(crate) swept: bool,
}

impl Model for Recovered {
    ghost use Rattle.std.specs.Prelude.{map};
    ghost use Rattle.plain.specs.States.{states_of};
    ghost use Rattle.recover.specs.Recovery.{RecoveredShown, IsRecovery};

    ghost Value = { RecoveredShown };

    ghost view = { λ r. record {
      heap = r.heap;
      regions = r.regions.items;
      tickets = r.tickets.items;
      advancer = r.advancer;
      swept = r.swept;
    } };

    ghost invariant = { λ r. IsRecovery r.clock (states_of r.contents)
        (map (λ v. v.items) r.objects.items) (record {
          heap = r.heap;
          regions = r.regions.items;
          tickets = r.tickets.items;
          advancer = r.advancer;
          swept = r.swept;
        }) };
}

impl Recovered {
    /// What the store holds.
    pub fn contents(&self) -> &Contents
        ensures { IsRecovered self.now.heap.opening.layout self.now.heap.opening.words
            (states_of result.now) }
    {
        &self.contents
    }

    /// The clock of the image.
    pub fn clock(&self) -> Epoch
        ensures { result ≡ clock_of self.now.heap.opening.words }
    {
        self.clock
    }

    /// How many callers the store has.
    pub fn callers(&self) -> u64
        ensures { result ≡ self.now.heap.opening.callers }
    {
        self.tickets.len() as u64
    }

    /// How many slots that are open beyond the cut aren't closed yet.
    pub fn lost(&self) -> u64
        ensures { result ≡ lost_in self.now.regions }
    {
        let mut lost = 0;
        for region in &self.regions {
            lost += region.lost();
        }
        lost
    }

    /// Whether every slot beyond the cut is closed, and every part knows it.
    pub fn is_swept(&self) -> bool
        ensures { result ≡ self.now.swept }
    {
        self.swept
    }

    /// Closes every slot beyond the cut durably, and then tells every part of it. After a cut it
    /// can be called again. It takes no memory.
    pub fn sweep<G: Gate>(&mut self, gate: &mut G) -> Result<(), Cut>
        ensures gate { IsAskedOften G.cuts G.endless gate.old gate.new (is_err result) }
        ensures store { self.new.heap ≡ self.old.heap }
        ensures fewer { lost_in self.new.regions ≤ lost_in self.old.regions }
        ensures swept { OnOk result
            ((self.new.swept ≡ true) × (lost_in self.new.regions ≡ 0)) }
    {
        if self.swept {
            return Ok(());
        }
        close_and_tell(
            &self.heap,
            &mut self.regions,
            &mut self.tickets,
            &mut self.advancer,
            gate,
        )?;
        self.swept = true;
        Ok(())
    }

    /// The words as they stand. Every image that a crash permits of them has the clock and the
    /// contents of the image with which the store was opened.
    pub fn stop(self, alloc: Global) -> Result<Words, AllocError>
        ensures layout { IfOk result (λ words. words.layout ≡ self.heap.opening.layout) }
        ensures all { IfOk result (λ words. AreAllWords self.heap.opening.layout words) }
        ensures images { IfOk result (λ words. (image : List ℕ)
            → IsPermitted words.cur words.dur image
            → HoldsBase self.heap.opening.layout self.heap.opening.words image) }
    {
        let Recovered {
            heap,
            clock: _,
            contents: _,
            objects: _,
            regions,
            tickets,
            advancer,
            swept: _,
        } = self;
        let units = seats_of(alloc, regions)?;
        let seats = Seats {
            units,
            advancer,
            callers: tickets,
        };
        heap.stop(alloc, seats)
    }

    /// The parts of the store by themselves.
    pub fn into_parts(self) -> Parts
        ensures { ArePartsOf self result }
    {
        let Recovered {
            heap,
            clock,
            contents,
            objects,
            regions,
            tickets,
            advancer,
            swept: _,
        } = self;
        Parts {
            layout: heap.layout(),
            clock,
            heap,
            regions,
            objects,
            contents,
            tickets,
            advancer,
        }
    }
}

// The seats of all regions.
fn seats_of(alloc: Global, regions: Vec<Region>) -> Result<Vec<UnitSeat>, AllocError>
    ensures { IfOk result (λ seats. seats.items ≡ map (λ r. r.seat) regions.items) }
{
    let mut seats = Vec::with_capacity(alloc, regions.len())?;
    for region in regions {
        seats.push(region.into_seat())?;
    }
    Ok(seats)
}
