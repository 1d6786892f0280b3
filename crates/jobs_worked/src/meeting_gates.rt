// Gates that hold whoever asks them until others have come as well.
use mont_base::{Cut, Fuel, Gate};
use std::sync::atomic::{AtomicU64, Ordering};

// How often a gate looks for what it waits for, by one load each time.
const TURNS: u64 = 1_000_000_000;

// A meeting that a gate comes to once it has passed so many steps. It waits there until so many
// gates have come, to this meeting and to those before it.
pub(crate) struct Meeting {
    pub(crate) step: u64,
    pub(crate) come: u64,
}

// What the gates tell each other.
#[derive(Drop)]
pub(crate) struct Signals {
    // How many came to meetings.
    come: AtomicU64,
    // How many waited there in vain.
    late: AtomicU64,
}

impl Signals {
    pub(crate) fn new() -> Signals {
        Signals {
            come: AtomicU64::new(0),
            late: AtomicU64::new(0),
        }
    }

    // Whether nobody waited in vain.
    pub(crate) fn have_met(&self) -> bool {
        self.late.load(Ordering::SeqCst) == 0
    }

    // Comes to a meeting, and waits until so many have come, or the turns are spent.
    fn meet(&self, come: u64) {
        self.come.fetch_add(1, Ordering::SeqCst);
        for _ in 0..TURNS {
            if self.come.load(Ordering::SeqCst) >= come {
                return;
            }
        }
        self.late.fetch_add(1, Ordering::SeqCst);
    }
}

// A gate that comes to meetings, and passes as many steps as its fuel does.
#[derive(Drop)]
pub(crate) struct MeetingGate<'a> {
    pub(crate) signals: &'a Signals,
    pub(crate) meetings: &'static [Meeting],
    // How many steps it was asked for.
    pub(crate) steps: u64,
    pub(crate) fuel: Fuel,
}

impl MeetingGate<'_> {
    // Comes to the meetings that are next.
    fn meet(&self) {
        for meeting in self.meetings {
            if meeting.step == self.steps {
                self.signals.meet(meeting.come);
            }
        }
    }
}

impl Gate for MeetingGate<'_> {
    ghost use Rattle.mont_base.specs.Gates.{is_endless, BurnsFuel};

    ghost cuts = { λ g. g.fuel.cuts };

    ghost endless = { λ g. is_endless g.fuel };

    ghost asked = { λ old new cut. BurnsFuel old.fuel new.fuel cut };

    fn step(&mut self) -> Result<(), Cut> {
        self.meet();
        self.steps = self.steps.saturating_add(1);
        self.fuel.step()
    }
}
