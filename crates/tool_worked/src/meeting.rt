// Two callers whose boxes wait for each other: neither put ends before both were begun.
ghost use Rattle.std.specs.Prelude.{◌≡◌};

use index_kit::{Index, SortedIndex};
use mont_base::{MemSink, MemSource, Text};
use montage_tool::{Status, serve};
use std::alloc::{AllocError, Global};
use std::process::Abort;
use std::rt::Files;
use std::sync::atomic::{AtomicU64, Ordering};
use std::sync::{Arc, Wait};
use std::test::Fail;
use std::thread::Threads;

// How often a box looks whether the other was entered, by one load each time.
const TURNS: u64 = 1_000_000_000;

const JOB: &str = "\
montage-job 3 mmqg 8 2 0 0000000000000000
0 put 2 10
1 put 1 11
";

const REPORT: &str = "\
montage-report 3 mmqg 8 2
base 2
map 0 0
map 1 0
queue 2 0
graph 3 0 0
unit 0 1
0 0 0 2 put 2 10 = none
unit 1 1
0 1 0 2 put 1 11 = none
unit 2 0
unit 3 0
caller 0 1
at 0 0
caller 1 1
at 1 0
image 2
map 0 0
map 1 0
queue 2 0
graph 3 0 0
end
";

// What the boxes tell.
#[derive(Drop)]
struct Signals {
    // How many puts were entered.
    entered: AtomicU64,
    // How many puts waited in vain.
    late: AtomicU64,
    // How many boxes were dropped.
    dropped: AtomicU64,
    // How many of them held just their pair then.
    held: AtomicU64,
}

// A box that waits in each put until there were as many as there are boxes, and the pair that it is
// to hold in the end.
struct Meeting {
    index: SortedIndex,
    key: Text,
    place: u64,
    signals: Arc<Signals, Global>,
}

impl Drop for Meeting {
    fn drop(self) {
        self.signals.dropped.fetch_add(1, Ordering::SeqCst);
        if self.index.len() == 1 && self.index.find(self.key) == Some(self.place) {
            self.signals.held.fetch_add(1, Ordering::SeqCst);
        }
        let Meeting {
            index: _,
            key: _,
            place: _,
            signals: _,
        } = self;
    }
}

impl Index for Meeting {
    ghost places = { λ m. m.index.places };

    ghost spare = { λ m. m.index.spare };

    fn len(&self) -> u64 {
        self.index.len()
    }

    fn find(&self, key: Text) -> Option<u64> {
        self.index.find(key)
    }

    fn reserve(&mut self) -> Result<(), AllocError> {
        self.index.reserve()
    }

    fn put(&mut self, key: Text, place: u64) -> Option<u64> {
        self.signals.entered.fetch_add(1, Ordering::SeqCst);
        if !both_come(&self.signals.entered) {
            self.signals.late.fetch_add(1, Ordering::SeqCst);
        }
        self.index.put(key, place)
    }

    fn remove(&mut self, key: Text) -> Option<u64> {
        self.index.remove(key)
    }
}

// Looks until both puts were entered. Tells whether that came within the turns.
fn both_come(entered: &AtomicU64) -> bool {
    for _ in 0..TURNS {
        if entered.load(Ordering::SeqCst) == 2 {
            return true;
        }
    }
    false
}

// A box for the pair of this key and this place.
fn box_for(
    alloc: Global,
    key: u64,
    place: u64,
    signals: &Arc<Signals, Global>,
) -> Result<Box<Meeting>, AllocError> {
    let meeting = Meeting {
        index: SortedIndex::new(alloc),
        key: Text::of_number(key),
        place,
        signals: Arc::try_clone(signals)?,
    };
    Ok(Box::new(alloc, meeting)?)
}

#[test]
fn puts_of_two_units_are_under_way_at_once(rt: HostRuntime) -> Result<(), Fail> {
    let signals = Signals {
        entered: AtomicU64::new(0),
        late: AtomicU64::new(0),
        dropped: AtomicU64::new(0),
        held: AtomicU64::new(0),
    };
    let signals = Arc::new(rt.alloc(), signals)?;
    is_run(&rt, &signals)?;
    have_met(&rt, &signals);
    Ok(())
}

// The job is run, and its report is written.
fn is_run(
    rt: &(impl Abort + AllocGlobal + Files + Threads + Wait + Sync),
    signals: &Arc<Signals, Global>,
) -> Result<(), Fail> {
    let mut out = MemSink::new(rt.alloc(), 4096, 4096, Vec::new(rt.alloc()))?;
    let status = status_of(rt, signals, &mut out)?;
    assert!(rt; status == Status::Done && out.taken() == REPORT.as_bytes());
    Ok(())
}

// What the run comes to.
fn status_of(
    rt: &(impl AllocGlobal + Files + Threads + Wait + Sync),
    signals: &Arc<Signals, Global>,
    out: &mut MemSink,
) -> Result<Status, Fail> {
    let alloc = rt.alloc();
    let text = Vec::from_slice(alloc, JOB.as_bytes())?;
    let words = vec![in alloc; String::from_str(alloc, "run")?]?;
    let mut job = MemSource::new(text, 4096, Vec::new(alloc));
    run_boxes(rt, &words, signals, &mut job, out)
}

// Hands both boxes to the run.
fn run_boxes(
    rt: &(impl AllocGlobal + Files + Threads + Wait + Sync),
    words: &[String],
    signals: &Arc<Signals, Global>,
    job: &mut MemSource,
    out: &mut MemSink,
) -> Result<Status, Fail> {
    let alloc = rt.alloc();
    let mut indexes: Vec<Box<dyn Index + Send>> = Vec::new(alloc);
    indexes.push(box_for(alloc, 2, 0, signals)?)?;
    indexes.push(box_for(alloc, 1, 8, signals)?)?;
    Ok(serve(rt, words, job, indexes, out)?)
}

// Neither put waited in vain, and each box held its pair until it was dropped.
fn have_met(rt: &impl Abort, signals: &Signals) {
    assert!(rt; signals.late.load(Ordering::SeqCst) == 0);
    assert!(rt; signals.dropped.load(Ordering::SeqCst) == 2);
    assert!(rt; signals.held.load(Ordering::SeqCst) == 2);
}
