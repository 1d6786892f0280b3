// What the outcomes of one caller have shown so far, and whether another may come next.
ghost use Rattle.std.specs.Prelude.{◌≡◌, ◌↔◌, ◌-◌, ◌^◌, ◌<◌, IsTrue, OnOk, max};
ghost use Rattle.std.specs.BTreeMap as tree;
ghost use Rattle.std.specs.Ordering.{nat_cmp};
ghost use Rattle.mont_check.specs.Bounds.{IsAtMost, IsBelow, IsSettled, joined};
ghost use Rattle.mont_check.specs.Progress.{Allows, AllowsCall, AllowsClock, AllowsEntry, AllowsPlace, AllowsSettled, AllowsTick, IsFresh, Notes, RaisesPlace};

use crate::shown::{clock_of, epoch_of, is_at, is_cut, place_of, settled_of, tick_of};
use job_text::{Outcome, Report};
use mont_base::{Epoch, Unit};
use std::alloc::{AllocError, Global};
use std::collections::BTreeMap;

/// What the outcomes of one caller have shown so far.
#[derive(Debug, Drop)]
pub struct Progress {
    /// How many calls were answered.
    pub calls: u64,
    /// The greatest epoch of their entries.
    pub newest: Option<Epoch>,
    /// The greatest clock that a sync or a tick was answered with.
    pub clock: Option<Epoch>,
    /// The greatest place of the entries in each unit.
    pub places: BTreeMap<Unit, u64>,
    pub was_cut: bool,
}

impl Progress {
    /// Nothing was shown. It allocates nothing.
    pub fn new(alloc: Global) -> Progress
        ensures { IsFresh result }
    {
        Progress {
            calls: 0,
            newest: None,
            clock: None,
            places: BTreeMap::new(alloc),
            was_cut: false,
        }
    }

    /// Whether the outcome may come next.
    pub fn allows(&self, report: &Report, outcome: &Outcome) -> bool
        ensures { IsTrue result ↔ Allows report.now.histories self.now outcome.now }
    {
        !self.was_cut && self.allows_call(report, outcome) && self.allows_clock(outcome)
    }

    // Whether the entry that the outcome names may come next, if it names one.
    fn allows_call(&self, report: &Report, outcome: &Outcome) -> bool
        ensures { IsTrue result ↔ AllowsCall report.now.histories self.now outcome.now }
    {
        self.allows_entry(epoch_of(report, outcome)) && self.allows_place(place_of(outcome))
    }

    // Whether the clock that the outcome shows may come next, if it shows one.
    fn allows_clock(&self, outcome: &Outcome) -> bool
        ensures { IsTrue result ↔ AllowsClock self.now outcome.now }
    {
        self.allows_tick(tick_of(outcome)) && self.allows_settled(settled_of(outcome))
    }

    // Whether an entry of the epoch may come next.
    fn allows_entry(&self, epoch: Option<Epoch>) -> bool
        ensures { IsTrue result ↔ AllowsEntry self.now epoch }
    {
        match epoch {
            Some(epoch) => is_at_most(self.newest, epoch) && is_at_most(self.clock, epoch),
            None => true,
        }
    }

    // Whether an entry at the place of a unit may come next.
    fn allows_place(&self, place: Option<(Unit, u64)>) -> bool
        ensures { IsTrue result ↔ AllowsPlace self.now place }
    {
        match place {
            Some((unit, place)) => is_below(self.last_place(unit), place),
            None => true,
        }
    }

    /// The greatest place of the entries in a unit.
    pub fn last_place(&self, unit: Unit) -> Option<u64>
        ensures { result ≡ tree.get nat_cmp self.now.places unit }
    {
        self.places.get(&unit).copied()
    }

    // Whether a tick to the epoch may come next.
    fn allows_tick(&self, epoch: Option<Epoch>) -> bool
        ensures { IsTrue result ↔ AllowsTick self.now epoch }
    {
        match epoch {
            Some(epoch) => is_at_most(self.newest, epoch) && is_below(self.clock, epoch),
            None => true,
        }
    }

    // Whether a durable clock that is past all that the caller did may come next.
    fn allows_settled(&self, clock: Option<Epoch>) -> bool
        ensures { IsTrue result ↔ AllowsSettled self.now clock }
    {
        match clock {
            Some(clock) => is_settled(self.newest, clock) && is_at_most(self.clock, clock),
            None => true,
        }
    }

    /// Takes an outcome in.
    pub fn note(&mut self, report: &Report, outcome: &Outcome) -> Result<(), AllocError>
        requires { self.old.calls < 2 ^ 64 - 1 }
        ensures { OnOk result (Notes report.now.histories outcome.now self.old self.new) }
    {
        if is_at(outcome) {
            self.calls += 1;
        }
        self.newest = greater(self.newest, epoch_of(report, outcome));
        self.clock = greater(self.clock, clock_of(outcome));
        self.was_cut = self.was_cut || is_cut(outcome);
        raise(&mut self.places, place_of(outcome))
    }
}

/// Whether a number is at most the bound, if there is one.
pub fn is_at_most(number: Option<u64>, bound: u64) -> bool
    ensures { IsTrue result ↔ IsAtMost number bound }
{
    match number {
        Some(number) => number <= bound,
        None => true,
    }
}

/// Whether a number is below the bound, if there is one.
pub fn is_below(number: Option<u64>, bound: u64) -> bool
    ensures { IsTrue result ↔ IsBelow number bound }
{
    match number {
        Some(number) => number < bound,
        None => true,
    }
}

// Whether the bound is two past an epoch, if there is one.
fn is_settled(epoch: Option<Epoch>, bound: Epoch) -> bool
    ensures { IsTrue result ↔ IsSettled epoch bound }
{
    match epoch {
        Some(epoch) => bound >= 2 && epoch <= bound - 2,
        None => true,
    }
}

// The greater of two numbers, where there are two.
fn greater(a: Option<u64>, b: Option<u64>) -> Option<u64>
    ensures { result ≡ joined max a b }
{
    match (a, b) {
        (Some(a), Some(b)) => Some(a.max(b)),
        (None, b) => b,
        (a, None) => a,
    }
}

// Makes a place the greatest of its unit, unless a greater one is known.
fn raise(places: &mut BTreeMap<Unit, u64>, named: Option<(Unit, u64)>) -> Result<(), AllocError>
    ensures { OnOk result (RaisesPlace named places.old places.new) }
{
    let Some((unit, place)) = named else {
        return Ok(());
    };
    let known = places.get(&unit).copied();
    if known.is_none_or(|known| known < place) {
        places.insert(unit, place)?;
    }
    Ok(())
}
