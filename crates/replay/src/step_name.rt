// The words by which the events of a schedule are named.
ghost use Rattle.std.specs.Prelude.{◌≡◌, ◌≢◌, MatchOption};

/// The first word of an event.
#[derive(Clone, Copy, Debug, PartialEq, Eq)]
pub enum StepName {
    Look,
    Tell,
    Confirm,
    Store,
    Leave,
    Read,
    Withdraw,
    Freeze,
    Durable,
    Close,
    PersistClose,
    Check,
    LoadWord,
    PersistWord,
    SetClock,
    PersistClock,
}

const ALL: [StepName; 16] = [
    StepName::Look,
    StepName::Tell,
    StepName::Confirm,
    StepName::Store,
    StepName::Leave,
    StepName::Read,
    StepName::Withdraw,
    StepName::Freeze,
    StepName::Durable,
    StepName::Close,
    StepName::PersistClose,
    StepName::Check,
    StepName::LoadWord,
    StepName::PersistWord,
    StepName::SetClock,
    StepName::PersistClock,
];

impl StepName {
    ghost use Rattle.replay.specs.declared.step_name.StepName.{StepName};
    ghost use Rattle.replay.specs.StepNames.{step_word};

    /// How it is spelled.
    pub fn word(self) -> &'static [u8]
        ensures { result.now ≡ step_word self }
    {
        match self {
            StepName::Look => b"look",
            StepName::Tell => b"tell",
            StepName::Confirm => b"confirm",
            StepName::Store => b"store",
            StepName::Leave => b"leave",
            StepName::Read => b"read",
            StepName::Withdraw => b"withdraw",
            StepName::Freeze => b"freeze",
            StepName::Durable => b"durable",
            StepName::Close => b"close",
            StepName::PersistClose => b"persistclose",
            StepName::Check => b"check",
            StepName::LoadWord => b"loadword",
            StepName::PersistWord => b"persistword",
            StepName::SetClock => b"setclock",
            StepName::PersistClock => b"persistclock",
        }
    }

    /// The name that a word is.
    pub fn of_word(word: &[u8]) -> Option<StepName>
        ensures { MatchOption result ((name : StepName) → word.now ≢ step_word name)
            (λ name. word.now ≡ step_word name) }
    {
        for name in ALL {
            if name.word() == word {
                return Some(name);
            }
        }
        None
    }
}
