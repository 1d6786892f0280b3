// What the command line may ask, and what each form wants.
ghost use Rattle.std.specs.Prelude.{◌≡◌, ◌≢◌, MatchOption};

use crate::wanted::{Figure, Wanted};

/// The first word of the command line.
#[derive(Clone, Copy, Debug, PartialEq, Eq)]
pub enum Form {
    Run,
    Crash,
    Resume,
    Recover,
    Check,
    Replay,
    Big,
    Bank,
    Help,
    Version,
}

/// All of them, in the order in which they are told.
pub const FORMS: [Form; 10] = [
    Form::Run,
    Form::Crash,
    Form::Resume,
    Form::Recover,
    Form::Check,
    Form::Replay,
    Form::Big,
    Form::Bank,
    Form::Help,
    Form::Version,
];

impl Form {
    ghost use Rattle.refusal_help.specs.declared.form.Form.{Form};
    ghost use Rattle.refusal_help.specs.Table.{form_word, form_args};

    /// How it is spelled.
    pub fn word(self) -> &'static [u8]
        ensures { result.now ≡ form_word self }
    {
        match self {
            Form::Run => b"run",
            Form::Crash => b"crash",
            Form::Resume => b"resume",
            Form::Recover => b"recover",
            Form::Check => b"check",
            Form::Replay => b"replay",
            Form::Big => b"big",
            Form::Bank => b"bank",
            Form::Help => b"--help",
            Form::Version => b"--version",
        }
    }

    /// What the words after it are to be.
    pub fn args(self) -> &'static [Wanted]
        ensures { result.now ≡ form_args self }
    {
        match self {
            Form::Run | Form::Replay | Form::Help | Form::Version => &[],
            Form::Crash | Form::Resume | Form::Check => &[Wanted::File],
            Form::Recover => &[Wanted::File, Wanted::Number(Figure::Workers)],
            Form::Big | Form::Bank => &[Wanted::Number(Figure::Any)],
        }
    }

    /// The one that a word names.
    pub fn of_word(word: &[u8]) -> Option<Form>
        ensures { MatchOption result ((name : Form) → word.now ≢ form_word name)
            (λ name. word.now ≡ form_word name) }
    {
        for name in FORMS {
            if name.word() == word {
                return Some(name);
            }
        }
        None
    }
}
