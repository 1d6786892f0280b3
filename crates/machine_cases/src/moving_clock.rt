// A registration while the clock moves on.
ghost use Rattle.machine_cases.specs.Working.{IsAdvancerOf};

use crate::engine::Engine;
use crate::engine_ends::begin_with;
use crate::line_fault::LineFault;
use advance::Advancer;
use announce::register;
use heap::Heap;
use mont_base::{Cut, FIRST_CLOCK, Fuel, Gate, Layout, Steady};
use std::alloc::Global;
use std::sync::Wait;

// A gate that passes a number of steps, and moves the clock on before so many looks after an
// announcement. Of the steps of a registration these are the third, the fifth and so on.
#[derive(Drop)]
struct MovingClock<'a> {
    heap: &'a Heap,
    advancer: Advancer,
    moves: u64,
    asked: u64,
    fuel: Fuel,
    ghost fits: { IsAdvancerOf heap.now advancer },
}

impl MovingClock<'_> {
    // Whether the next step is such a look.
    fn is_moved(&self) -> bool {
        self.moves > 0 && self.asked >= 2 && self.asked % 2 == 0
    }
}

impl Gate for MovingClock<'_> {
    ghost use Rattle.mont_base.specs.Gates.{is_endless, BurnsFuel};

    ghost cuts = { λ g. g.fuel.cuts };

    ghost endless = { λ g. is_endless g.fuel };

    ghost asked = { λ old new cut. BurnsFuel old.fuel new.fuel cut };

    #[tactic(auto, using(crate::proofs::Calls::same_advancer))]
    fn step(&mut self) -> Result<(), Cut> {
        if self.is_moved() {
            self.moves = self.moves.saturating_sub(1);
            let _clock = self.advancer.advance(self.heap, &mut Steady);
        }
        self.asked = self.asked.saturating_add(1);
        self.fuel.step()
    }
}

/// The least number of steps with which a registration isn't cut while the clock moves so often.
pub fn least_moved<R: Wait>(
    rt: &R,
    alloc: Global,
    layout: Layout,
    moves: u64,
) -> Result<u64, LineFault> {
    for steps in 0..100 {
        if is_registered(rt, alloc, layout, moves, steps)? {
            return Ok(steps);
        }
    }
    Err(LineFault::Unclear)
}

// Whether the gate that passes so many steps lets the unit be registered, at the clock that was
// moved so often.
#[tactic(auto, using(crate::proofs::Permitted::may_look))]
fn is_registered<R: Wait>(
    rt: &R,
    alloc: Global,
    layout: Layout,
    moves: u64,
    steps: u64,
) -> Result<bool, LineFault> {
    let Engine {
        heap,
        region,
        others: _,
        advancer,
        pass: _,
    } = begin_with(alloc, layout, Fuel::endless())?;
    let mut seat = region.into_seat();
    let mut gate = MovingClock {
        heap: &heap,
        advancer,
        moves,
        asked: 0,
        fuel: Fuel::new(steps),
    };
    let registered = register(rt, &heap, &mut seat, &mut gate);
    let clock = gate.advancer.clock();
    match registered {
        Ok(epoch) if epoch == clock && clock == FIRST_CLOCK.saturating_add(moves) => Ok(true),
        Ok(_epoch) => Err(LineFault::Unclear),
        Err(Cut) => Ok(false),
    }
}
