// The words of a caller: a linear congruence modulo 2^64.
ghost use Rattle.std.specs.Prelude.{◌≡◌};
ghost use Rattle.big_job.specs.CallerWords.{first_word, next_word};

const FACTOR: u64 = 6_364_136_223_846_793_005;

const SHIFT: u64 = 1_442_695_040_888_963_407;

/// The word that a caller has come to.
#[derive(Clone, Copy, Debug, PartialEq, Eq)]
pub struct CallerWords {
    pub word: u64,
}

impl CallerWords {
    /// Where the words of a caller begin in the job of a number.
    pub fn new(number: u64, caller: u64) -> CallerWords
        ensures { result.word ≡ first_word number caller }
    {
        CallerWords {
            word: number.wrapping_mul(4).wrapping_add(caller),
        }
    }

    /// Goes on to the next word.
    pub fn step(&mut self)
        ensures { self.new.word ≡ next_word self.old.word }
    {
        self.word = self.word.wrapping_mul(FACTOR).wrapping_add(SHIFT);
    }
}
