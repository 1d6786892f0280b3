// A caller that finds no memory stops no other, and all passes are there after it.
ghost use Rattle.job_text.specs.Grammar.{IsJob};

use crate::ended_runs::{Ended, ended_run};
use crate::reports::job_of;
use index_kit::{Index, SortedIndex};
use job_text::Job;
use mont_base::{Fuel, Text};
use std::alloc::{AllocError, Global};
use std::sync::Wait;
use std::test::Fail;
use std::thread::Threads;

const JOB: &str = "\
montage-job 3 mqg 8 2 3 0000000000000000
0 enq 1 5
1 put 1 10
0 enq 1 6
1 enq 1 7
";

// A sorted index that refuses room.
#[derive(Drop)]
struct FullIndex {
    index: SortedIndex,
}

impl Index for FullIndex {
    ghost places = { λ f. f.index.places };

    ghost spare = { λ f. f.index.spare };

    fn len(&self) -> u64 {
        self.index.len()
    }

    fn find(&self, key: Text) -> Option<u64> {
        self.index.find(key)
    }

    fn reserve(&mut self) -> Result<(), AllocError> {
        Err(AllocError)
    }

    fn put(&mut self, key: Text, place: u64) -> Option<u64> {
        self.index.put(key, place)
    }

    fn remove(&mut self, key: Text) -> Option<u64> {
        self.index.remove(key)
    }
}

#[test]
fn passes_outlive_want_of_memory(rt: HostRuntime) -> Result<(), Fail> {
    let job = job_of(rt.alloc(), JOB)?;
    let mut gate = Fuel::new(0);
    if !is_short_run(&rt, rt.alloc(), &job, &mut gate)? || gate.cuts != 1 {
        return Err(Fail::new("another end"));
    }
    Ok(())
}

// Whether a run ends as `is_short` says.
fn is_short_run(
    rt: &(impl Threads + Wait + Sync),
    alloc: Global,
    job: &Job,
    gate: &mut Fuel,
) -> Result<bool, Fail>
    requires { IsJob job.now }
{
    let ended = short_run(rt, alloc, job, gate)?;
    Ok(is_short(&ended))
}

// A run whose callers find no room in the index.
fn short_run(
    rt: &(impl Threads + Wait + Sync),
    alloc: Global,
    job: &Job,
    gate: &mut Fuel,
) -> Result<Ended, Fail>
    requires { IsJob job.now }
{
    let index = SortedIndex::new(alloc);
    let indexes = vec![in alloc; FullIndex { index }]?;
    let gates = vec![in alloc; Fuel::endless(); 2]?;
    ended_run(rt, alloc, job, indexes, gates, gate)
}

// The run lacked memory, and both calls of the first caller alone were answered.
fn is_short(ended: &Ended) -> bool {
    match ended.stopped.histories.as_slice() {
        [map, queue, _] if ended.ran.is_err() && map.is_empty() => {
            queue.len() == 2 && queue.as_slice().iter().all(|entry| entry.caller == 0)
        }
        _ => false,
    }
}
