// What a crash keeps of a report's calls, and what is lost.
ghost use Rattle.std.specs.Prelude.{◌≡◌, ◌-◌, length, IfOk};
ghost use Rattle.mont_base.specs.History.{cut_at};
ghost use Rattle.report_drawing.specs.Lanes.{is_lost};

use job_text::Report;
use mont_base::{Entry, Epoch};
use plain::cut_at;
use std::alloc::{AllocError, Global};

/// The last epoch that an image with this clock keeps.
pub fn last_kept(image_clock: Epoch) -> Epoch
    ensures { result ≡ image_clock - 2 }
{
    image_clock.saturating_sub(2)
}

/// Whether what is of an epoch is lost in an image with this clock.
pub fn is_lost(image_clock: Epoch, epoch: Epoch) -> bool
    ensures { result ≡ is_lost image_clock epoch }
{
    last_kept(image_clock) < epoch
}

/// How many calls of a unit were answered, and how many of them an image with this clock keeps.
pub fn calls_of(
    alloc: Global,
    image_clock: Epoch,
    history: &[Entry],
) -> Result<(u64, u64), AllocError>
    ensures answered { IfOk result (λ n. n.0 ≡ length history.now) }
    ensures kept { IfOk result (λ n. n.1 ≡ length (cut_at (image_clock - 2) history.now)) }
{
    let kept = cut_at(alloc, last_kept(image_clock), history)?;
    Ok((history.len() as u64, kept.len() as u64))
}

/// The same of all units together.
pub fn all_calls(alloc: Global, report: &Report) -> Result<(u64, u64), AllocError> {
    let (mut answered, mut kept) = (0u64, 0u64);
    for history in report.histories.as_slice() {
        let (more, of_them) = calls_of(alloc, report.image_clock, history.as_slice())?;
        answered = answered.saturating_add(more);
        kept = kept.saturating_add(of_them);
    }
    Ok((answered, kept))
}
