// Callers and the advancer meet, before their calls and in the middle of them, so that each is
// under way while the others are.
ghost use Rattle.job_text.specs.Grammar.{IsJob};

use crate::meeting_gates::{Meeting, MeetingGate, Signals};
use crate::reports::{job_of, text_of_run};
use job_text::Job;
use mont_base::Fuel;
use std::alloc::Global;
use std::sync::Wait;
use std::test::Fail;
use std::thread::Threads;

// A run whose gates meet. In its report a ? stands for an epoch that may be 2 or 3.
struct Run {
    job: &'static str,
    // Where the gate of each caller comes to meetings, and that of the advancer.
    callers: &'static [&'static [Meeting]],
    advancer: &'static [Meeting],
    report: &'static str,
}

static RUNS: &[Run] = &[
    // A put is held before its sixth step until the other caller and the advancer were asked, and
    // these are held before their first step until it is.
    Run {
        job: "\
montage-job 3 mqg 8 2 1 0000000000000000
0 put 1 10
1 len 1
",
        callers: &[
            &[Meeting { step: 5, come: 3 }],
            &[Meeting { step: 0, come: 3 }],
        ],
        advancer: &[Meeting { step: 0, come: 3 }],
        report: "\
montage-report 3 mqg 8 2
base 2
map 0 0
queue 1 0
graph 2 0 0
unit 0 1
0 0 0 2 put 1 10 = none
unit 1 1
0 1 0 ? len 1 = count 0
unit 2 0
caller 0 1
at 0 0
caller 1 1
at 1 0
image 3
map 0 0
queue 1 0
graph 2 0 0
end
",
    },
    // Three callers and the advancer begin at once, so each has a thread.
    Run {
        job: "\
montage-job 3 mqg 8 3 1 0000000000000000
2 degree 2 7
0 get 1
1 enq 1 5
1 len 1
",
        callers: &[
            &[Meeting { step: 0, come: 4 }],
            &[Meeting { step: 0, come: 4 }],
            &[Meeting { step: 0, come: 4 }],
        ],
        advancer: &[Meeting { step: 0, come: 4 }],
        report: "\
montage-report 3 mqg 8 3
base 2
map 0 0
queue 1 0
graph 2 0 0
unit 0 1
0 0 0 ? get 1 = none
unit 1 2
0 1 0 ? enq 1 5 = none
1 1 1 ? len 1 = count 1
unit 2 1
0 2 0 ? degree 2 7 = none
caller 0 1
at 0 0
caller 1 2
at 1 0
at 1 1
caller 2 1
at 2 0
image 3
map 0 0
queue 1 0
graph 2 0 0
end
",
    },
    // The clock can't move past 3 while a put is held at epoch 2: a tick is tried again until the
    // put has ended. Were it not held up, the caller would be done before its 500th step.
    Run {
        job: "\
montage-job 3 mqg 8 2 0 0000000000000000
0 put 1 10
1 enq 1 7
1 tick
1 tick
1 deq 1
1 sync
",
        callers: &[
            &[Meeting { step: 5, come: 2 }, Meeting { step: 5, come: 4 }],
            &[Meeting { step: 0, come: 2 }, Meeting { step: 500, come: 4 }],
        ],
        advancer: &[],
        report: "\
montage-report 3 mqg 8 2
base 2
map 0 0
queue 1 0
graph 2 0 0
unit 0 1
0 0 0 2 put 1 10 = none
unit 1 2
0 1 0 2 enq 1 7 = none
1 1 1 4 deq 1 = was 7
unit 2 0
caller 0 1
at 0 0
caller 1 5
at 1 0
ticked 3
ticked 4
at 1 1
synced 6
image 6
map 0 1
1 10
queue 1 0
graph 2 0 0
end
",
    },
    // The put is cut in place of that: the tick is stuck, the put's unit is halted, and a sync is
    // stuck where it has something to wait for.
    Run {
        job: "\
montage-job 3 mqg 8 2 0 0000000000000000
stop 0 5
0 put 1 10
1 tick
1 tick
1 put 1 11
1 sync
1 enq 1 7
1 sync
",
        callers: &[
            &[Meeting { step: 5, come: 2 }, Meeting { step: 5, come: 4 }],
            &[Meeting { step: 0, come: 2 }, Meeting { step: 500, come: 4 }],
        ],
        advancer: &[],
        report: "\
montage-report 3 mqg 8 2
base 2
map 0 0
queue 1 0
graph 2 0 0
unit 0 0
unit 1 1
0 1 0 3 enq 1 7 = none
unit 2 0
caller 0 1
cut 0
caller 1 6
ticked 3
stuck 0 2
halted 0 0
synced 3
at 1 0
stuck 0 2
image 3
map 0 0
queue 1 0
graph 2 0 0
end
",
    },
];

#[test]
fn callers_meet_as_told(rt: HostRuntime) -> Result<(), Fail> {
    let alloc = rt.alloc();
    for run in RUNS {
        is_met(&rt, alloc, run)?;
    }
    Ok(())
}

// The gates of a run meet, and its report is the one that is told.
fn is_met(rt: &(impl Threads + Wait + Sync), alloc: Global, run: &Run) -> Result<(), Fail> {
    let job = job_of(alloc, run.job)?;
    let signals = Signals::new();
    let text = text_of_meeting(rt, alloc, run, &job, &signals)?;
    if !signals.have_met() || !is_told(text.as_slice(), run.report.as_bytes()) {
        return Err(Fail::new(run.job));
    }
    Ok(())
}

// The text of the report of a run.
fn text_of_meeting(
    rt: &(impl Threads + Wait + Sync),
    alloc: Global,
    run: &Run,
    job: &Job,
    signals: &Signals,
) -> Result<Vec<u8>, Fail>
    requires { IsJob job.now }
{
    let mut gates = Vec::new(alloc);
    for (caller, meetings) in run.callers.iter().enumerate() {
        gates.push(gate(job, caller as u64, meetings, signals))?;
    }
    let advancers = gate(job, job.callers, run.advancer, signals);
    text_of_run(rt, alloc, job, gates, advancers)
}

// The gate of whoever has this number, with the fuel that the job gives it.
fn gate<'a>(
    job: &Job,
    who: u64,
    meetings: &'static [Meeting],
    signals: &'a Signals,
) -> MeetingGate<'a> {
    let stop = job.stops.as_slice().iter().find(|stop| stop.who == who);
    MeetingGate {
        signals,
        meetings,
        steps: 0,
        fuel: stop.map_or(Fuel::endless(), |stop| Fuel::new(stop.steps)),
    }
}

// Whether a text is the one that is told.
fn is_told(text: &[u8], told: &[u8]) -> bool {
    text.len() == told.len()
        && text.iter().zip(told).all(|(found, byte)| found == byte
            || *byte == b'?' && matches!(*found, b'2' | b'3'))
}
