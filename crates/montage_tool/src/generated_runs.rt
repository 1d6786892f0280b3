// The generated job or the generated bank of a number is run, on a store that was never used.
ghost use Rattle.std.specs.Prelude.{map, IfOk, IfErr};
ghost use Rattle.std.specs.FinMap as finite;
ghost use Rattle.bank_job.specs.Bank.{bank_layout};
ghost use Rattle.big_job.specs.Generated.{generated_head};
ghost use Rattle.montage_tool.specs.GeneratedForms.{IsBankText, IsBigText, RefusesStore};

use crate::status::Status;
use bank_job::write_bank;
use bank_store::run_bank;
use index_kit::Index;
use job_store::run_big;
use std::sync::Wait;
use std::thread::Threads;

// The summary of a run of the generated job.
pub(crate) fn big_run<R: AllocGlobal + Threads + Wait + Sync, B: Index + Send>(
    rt: &R,
    number: u64,
    indexes: Vec<B>,
) -> Result<Vec<u8>, Status>
    ensures told { IfOk result (λ text. IsBigText number
        (map (λ b. finite.len (B.places b)) indexes.items) text.items) }
    ensures refused { IfErr result (RefusesStore generated_head.layout
        (map (λ b. finite.len (B.places b)) indexes.items)) }
{
    Ok(run_big(rt, rt.alloc(), number, indexes)?)
}

// The text of a run of the generated bank.
pub(crate) fn bank_run<R: AllocGlobal + Threads + Wait + Sync, B: Index + Send>(
    rt: &R,
    number: u64,
    indexes: Vec<B>,
) -> Result<Vec<u8>, Status>
    ensures told { IfOk result (λ text. IsBankText number
        (map (λ b. finite.len (B.places b)) indexes.items) text.items) }
    ensures refused { IfErr result (RefusesStore bank_layout
        (map (λ b. finite.len (B.places b)) indexes.items)) }
{
    let alloc = rt.alloc();
    let report = run_bank(rt, alloc, number, indexes)?;
    Ok(write_bank(alloc, number, &report)?)
}
