// The points of a unit's history: what is known of the slots after each number of its entries.
ghost use Rattle.std.specs.Prelude.{◌≡◌, ◌+◌, length, IfOk};
ghost use Rattle.plain.specs.States.{state_of};
ghost use Rattle.mont_check.specs.Points.{ArePoints, AreSettled, EpochsRise, IsClosed, IsNextPoint, PointsRise, UsesFewer};
ghost use Rattle.mont_check.specs.Walk.{facts_of};

use crate::walk::{Walk, sum};
use mont_base::{Entry, Epoch};
use plain::UnitState;
use std::alloc::{AllocError, Global};

/// What is known after the first entries of a unit.
#[derive(Clone, Copy, Debug, PartialEq, Eq)]
pub struct Point {
    /// The slots that the entries retired.
    pub retired: u64,
    /// The most things that were live at this point or an earlier one.
    pub live: u64,
    /// The most slots that were taken until this point or an earlier one, closed ones too.
    pub taken: u64,
}

/// The points of a history, from that before its first entry to that after its last.
pub fn points_of(
    alloc: Global,
    base: &UnitState,
    history: &[Entry],
) -> Result<Vec<Point>, AllocError>
    ensures { IfOk result (λ v. ArePoints (state_of base.now) history.now v.items) }
{
    let mut walk = Walk::new(base)?;
    let mut points = Vec::new(alloc);
    let mut last = point_at(&walk, 0, 0)?;
    points.push(last)?;
    for entry in history {
        walk.pass(alloc, entry)?;
        last = point_at(&walk, last.live, last.taken)?;
        points.push(last)?;
    }
    Ok(points)
}

// The point that a walk is at, where these were the most that were live and taken before.
fn point_at(walk: &Walk, live: u64, taken: u64) -> Result<Point, AllocError>
    ensures { IfOk result (λ p. IsNextPoint (facts_of walk.now) live taken p) }
{
    let size = walk.state.size();
    Ok(Point {
        retired: walk.retired,
        live: live.max(size),
        taken: taken.max(sum(size, walk.retired)?),
    })
}

/// The slots that the entries of a history retired and that are closed at a durable clock.
pub fn closed_at(history: &[Entry], points: &[Point], clock: Epoch) -> u64
    requires rise { EpochsRise history.now }
    requires as_many { length points.now ≡ length history.now + 1 }
    ensures { IsClosed history.now points.now clock result }
{
    points[settled_count(history, clock)].retired
}

// How many entries have an epoch of at most two before the clock.
fn settled_count(history: &[Entry], clock: Epoch) -> usize
    requires { EpochsRise history.now }
    ensures { AreSettled history.now clock result }
{
    if clock < 2 {
        return 0;
    }
    history.partition_point(|entry| entry.epoch <= clock - 2)
}

/// The first point at which so many slots may be in use, where so many of the retired ones are
/// closed.
pub fn first_using(points: &[Point], used: u64, closed: u64) -> u64
    requires { PointsRise points.now }
    ensures { UsesFewer points.now used closed result }
{
    let taken = used.saturating_add(closed);
    let by_live = points.partition_point(|point| point.live < used);
    let by_taken = points.partition_point(|point| point.taken < taken);
    by_live.min(by_taken) as u64
}
