// What every step keeps, and with which cores a store begins.
ghost use Rattle.core_steps.specs.Opened.{ImagesAreRecovered, RecoveredCoresAreSound};
ghost use Rattle.core_steps.specs.CoreRuns.{StepsKeepSoundness, SoundnessLasts, FreshCoresAreSound};

/// Every allowed step leads from a sound core to a sound core.
pub fn steps_keep_soundness()
    ensures { StepsKeepSoundness }
{}

/// Every run of allowed steps does.
pub fn soundness_lasts()
    ensures { SoundnessLasts }
{}

/// The core of a store that was never used is sound.
pub fn fresh_cores_are_sound()
    ensures { FreshCoresAreSound }
{}

/// The core that recovery opens with is sound, with what was recovered as its base.
pub fn recovered_cores_are_sound()
    ensures { RecoveredCoresAreSound }
{}

/// Each image that recovery accepts has such a core, and structures to be its base.
pub fn images_are_recovered()
    ensures { ImagesAreRecovered }
{}
