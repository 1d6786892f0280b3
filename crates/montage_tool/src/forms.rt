// What the words of the command line ask for.
ghost use Rattle.std.specs.Prelude.{◌≡◌, ℕ, List, [], ◌∷◌, map, string_bytes, MatchOption};
ghost use Rattle.montage_tool.specs.Forms.{FormsAreOne, HaveForm, IsForm, files_in, no_files};

use job_text::{number, number_within};

/// More workers aren't asked of `recover`.
const MOST_WORKERS: u64 = 64;

const _: () = prove!(MOST_WORKERS == 64);

/// Which words of the command line name files.
#[derive(Clone, Copy, Debug, PartialEq, Eq)]
pub struct FileWords {
    /// The image that is read.
    pub image: Option<usize>,
    /// The image that is written.
    pub image_out: Option<usize>,
}

/// What words of the command line may ask for.
#[derive(Clone, Copy, Debug, PartialEq, Eq)]
pub enum Form {
    /// `run`: the job of standard input is run on a store that was never used, and its report is
    /// written.
    Run,
    /// `crash FILE`: the same, and the image that a crash leaves is written too.
    Crash,
    /// `resume FILE`: the job is run on what an image holds.
    Resume,
    /// `resume FILE OUT`: the same, and the image that a crash leaves is written too.
    ResumeTo,
    /// `recover FILE WORKERS`: what an image holds is written.
    Recover { workers: u64 },
    /// `check FILE`: the report of standard input is held against an image.
    Check,
    /// `replay`: the schedule of standard input is replayed.
    Replay,
    /// `big NUMBER`: the generated job of a number is run, and its summary is written.
    Big { number: u64 },
    /// `bank NUMBER`: the generated bank of a number is run, and its text is written.
    Bank { number: u64 },
}

/// The law that words are of one form at most.
pub fn forms_are_one()
    ensures { FormsAreOne }
{}

/// Which words name files. Words of no form name none.
pub fn files_of(words: &[String]) -> FileWords
    ensures named { (form : Form) → IsForm (map string_bytes words.now) form
        → result ≡ files_in form }
    ensures others { ¬ HaveForm (map string_bytes words.now) → result ≡ no_files }
{
    let (image, image_out) = match form_of(words) {
        Some(Form::Crash) => (None, Some(1)),
        Some(Form::Resume | Form::Recover { .. } | Form::Check) => (Some(1), None),
        Some(Form::ResumeTo) => (Some(1), Some(2)),
        Some(Form::Big { .. } | Form::Bank { .. }) => (None, None),
        Some(Form::Run | Form::Replay) | None => (None, None),
    };
    FileWords { image, image_out }
}

// The form of the words; `None` where they have none.
pub(crate) fn form_of(words: &[String]) -> Option<Form>
    ensures { MatchOption result (¬ HaveForm (map string_bytes words.now))
        (IsForm (map string_bytes words.now)) }
{
    match words {
        [name] => form_alone(name),
        [name, behind] => form_with_one(name, behind),
        [name, _, last] => form_with_two(name, last),
        _ => None,
    }
}

// The form of one word.
fn form_alone(name: &str) -> Option<Form>
    ensures { MatchOption result (¬ HaveForm (name.now ∷ [])) (IsForm (name.now ∷ [])) }
{
    match name {
        "run" => Some(Form::Run),
        "replay" => Some(Form::Replay),
        _ => None,
    }
}

// The form of two words, the second a file or a number.
fn form_with_one(name: &str, behind: &str) -> Option<Form>
    ensures { MatchOption result (¬ HaveForm (name.now ∷ behind.now ∷ []))
        (IsForm (name.now ∷ behind.now ∷ [])) }
{
    match name {
        "crash" => Some(Form::Crash),
        "resume" => Some(Form::Resume),
        "check" => Some(Form::Check),
        "big" => Some(Form::Big {
            number: number(behind.as_bytes())?,
        }),
        "bank" => Some(Form::Bank {
            number: number(behind.as_bytes())?,
        }),
        _ => None,
    }
}

// The form of a word, a file and another word.
fn form_with_two(name: &str, last: &str) -> Option<Form>
    ensures { (file : List ℕ) → MatchOption result
        (¬ HaveForm (name.now ∷ file ∷ last.now ∷ []))
        (IsForm (name.now ∷ file ∷ last.now ∷ [])) }
{
    match name {
        "resume" => Some(Form::ResumeTo),
        "recover" => Some(Form::Recover {
            workers: number_within(last.as_bytes(), 1, MOST_WORKERS)?,
        }),
        _ => None,
    }
}
