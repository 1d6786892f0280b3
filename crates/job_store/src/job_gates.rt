// The gates of a job's callers, and of its advancer.
ghost use Rattle.std.specs.Prelude.{◌≡◌, IfOk};
ghost use Rattle.job_store.specs.JobGates.{gate_of, AreGates};

use job_text::{Job, Stop};
use mont_base::Fuel;
use std::alloc::{AllocError, Global};

// The gate of each caller.
pub(crate) fn gates_of(alloc: Global, job: &Job) -> Result<Vec<Fuel>, AllocError>
    ensures { IfOk result (λ gates. AreGates job.now.stops job.now.callers gates.items) }
{
    let mut gates = Vec::new(alloc);
    for caller in 0..job.callers {
        gates.push(gate_of(job.stops.as_slice(), caller))?;
    }
    Ok(gates)
}

// The gate of whoever has this number. The advancer has the one after the callers.
pub(crate) fn gate_of(stops: &[Stop], who: u64) -> Fuel
    ensures { result ≡ gate_of stops.now who }
{
    for stop in stops {
        if stop.who == who {
            return Fuel::new(stop.steps);
        }
    }
    Fuel::endless()
}
