// The shifts of a caller of the generated bank.
ghost use Rattle.std.specs.Prelude.{◌≡◌, ◌<◌, All, IfOk};
ghost use Rattle.bank_job.specs.Shifts.{first_shifts, shift_of, IsBetweenUnits};

use crate::bank::{ACCOUNTS, CALLERS};
use crate::bank_words::{first_word, next_word};
use mont_base::Text;
use std::alloc::{AllocError, Global};

/// How many shifts each caller makes.
pub const SHIFTS: u64 = 500;

// The accounts to which a shift may go lie at most so far after its own.
const NEAR: u64 = 3;

const MOST: u64 = 100;

/// An amount, which is below 100 and may be 0, that goes from one account to another.
#[derive(Clone, Copy, Debug, PartialEq, Eq)]
pub struct Shift {
    pub from: Text,
    pub to: Text,
    pub amount: u64,
}

/// The shift that is made of a word.
pub fn shift_of(word: u64) -> Shift
    ensures value { result ≡ shift_of word }
    ensures units { IsBetweenUnits result }
{
    let from = (word >> 33) % ACCOUNTS;
    let to = (from + 1 + (word >> 40) % NEAR) % ACCOUNTS;
    Shift {
        from: Text::of_number(from),
        to: Text::of_number(to),
        amount: (word >> 48) % MOST,
    }
}

/// The shifts of a caller in the bank of a number, in their order.
pub fn shifts_of_caller(alloc: Global, number: u64, caller: u64) -> Result<Vec<Shift>, AllocError>
    requires { caller < CALLERS }
    ensures value { IfOk result (λ shifts. shifts.items ≡ first_shifts number caller SHIFTS) }
    ensures units { IfOk result (λ shifts. All IsBetweenUnits shifts.items) }
{
    let mut shifts = Vec::new(alloc);
    let mut word = first_word(number, caller);
    for _ in 0..SHIFTS {
        word = next_word(word);
        shifts.push(shift_of(word))?;
    }
    Ok(shifts)
}
