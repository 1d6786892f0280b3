// What notes of the machine's parts say.
ghost use Rattle.core_steps.specs.CoreRuns.{SplitsAreTrue, NotesLast};

/// What is noted of a part is true when it is noted.
pub fn splits_are_true()
    ensures { SplitsAreTrue }
{}

/// A true note stays true under every allowed step.
pub fn notes_last()
    ensures { NotesLast }
{}
