// The core of an empty store.
ghost use Rattle.std.specs.Prelude.{◌≡◌, IfOk, replicate};
ghost use Rattle.core_steps.specs.Fresh.{fresh, fresh_words, fresh_unit, fresh_caller};

use crate::parts::{AdvPart, CallerPart, Core, UnitPart, UnitStage};
use mont_base::{FIRST_CLOCK, Layout, Sequence};
use std::alloc::{AllocError, Global};

impl Core {
    /// The core of an empty store: every slot is closed, nothing is announced, and nobody has seen
    /// anything.
    pub fn fresh(alloc: Global, layout: Layout, callers: u64) -> Result<Core, AllocError>
        ensures { IfOk result (λ c. c ≡ fresh layout callers) }
    {
        Ok(Core {
            layout,
            cur: fresh_words(alloc, layout)?,
            dur: fresh_words(alloc, layout)?,
            told: zeros(alloc, layout.units())?,
            units: fresh_units(alloc, layout.units())?,
            advancer: AdvPart::Rest,
            odd: Sequence::new(alloc),
            callers: fresh_callers(alloc, callers, layout.units())?,
        })
    }
}

impl UnitPart {
    /// A unit that did nothing and holds nothing.
    fn fresh(alloc: Global) -> UnitPart
        ensures { result ≡ fresh_unit }
    {
        UnitPart {
            stage: UnitStage::Idle,
            history: Sequence::new(alloc),
            records: Sequence::new(alloc),
            retired: Sequence::new(alloc),
            written: Sequence::new(alloc),
            writing: None,
            lost: Sequence::new(alloc),
            durable: 0,
            frozen: None,
        }
    }
}

impl CallerPart {
    /// A caller that did nothing and has seen nothing of so many units.
    fn fresh(alloc: Global, units: u64) -> Result<CallerPart, AllocError>
        ensures { IfOk result (λ q. q ≡ fresh_caller units) }
    {
        Ok(CallerPart {
            calls: 0,
            receipts: Sequence::new(alloc),
            fronts: zeros(alloc, units)?,
            synced: zeros(alloc, units)?,
            newest: 0,
            durable: 0,
            cuts: Sequence::new(alloc),
            marks: Sequence::new(alloc),
        })
    }
}

fn zeros(alloc: Global, count: u64) -> Result<Sequence<u64>, AllocError>
    ensures { IfOk result (λ words. words ≡ replicate count 0) }
{
    Ok(Sequence::from_vec(vec![in alloc; 0; count as usize]?))
}

fn fresh_words(alloc: Global, layout: Layout) -> Result<Sequence<u64>, AllocError>
    ensures { IfOk result (λ words. words ≡ fresh_words layout) }
{
    let mut words = zeros(alloc, layout.words())?;
    words.set(0, FIRST_CLOCK);
    Ok(words)
}

fn fresh_units(alloc: Global, count: u64) -> Result<Sequence<UnitPart>, AllocError>
    ensures { IfOk result (λ units. units ≡ replicate count fresh_unit) }
{
    let mut units = Sequence::new(alloc);
    for _unit in 0..count {
        units.push(UnitPart::fresh(alloc))?;
    }
    Ok(units)
}

fn fresh_callers(alloc: Global, count: u64, units: u64) -> Result<Sequence<CallerPart>, AllocError>
    ensures { IfOk result (λ callers. callers ≡ replicate count (fresh_caller units)) }
{
    let mut callers = Sequence::new(alloc);
    for _caller in 0..count {
        callers.push(CallerPart::fresh(alloc, units)?)?;
    }
    Ok(callers)
}
