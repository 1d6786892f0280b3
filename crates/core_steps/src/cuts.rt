// What every image that a crash permits holds of a sound core.
ghost use Rattle.core_steps.specs.Cuts.{ImagesHoldCuts, ImagesHoldSynced};

/// Recovery accepts every image that a crash permits, and rebuilds of each unit exactly the
/// operations up to two epochs before the image's clock (buffered durable linearizability, DISC
/// 2016, by the epochs of Montage, ICPP 2021).
pub fn images_hold_cuts()
    ensures { ImagesHoldCuts }
{}

/// What a caller knows to be durable is in the cut of every such image.
pub fn images_hold_synced()
    ensures { ImagesHoldSynced }
{}
