// The store of the generated bank, and what its accounts hold at first.
ghost use Rattle.std.specs.Prelude.{◌≡◌, IfOk};
ghost use Rattle.bank_job.specs.Bank.{bank_layout, first_puts};

use mont_base::{Kinds, Layout, Op, Text};
use std::alloc::{AllocError, Global};

/// How many callers make shifts.
pub const CALLERS: u64 = 4;

/// How often a thread beside them is to advance the clock.
pub const ATTEMPTS: u64 = 100;

/// How many accounts there are.
pub const ACCOUNTS: u64 = 8;

const MAPS: u64 = 4;

const SLOTS: u64 = 2048;

// What each account holds at first.
const BALANCE: u64 = 1000;

/// Four map units, a queue and a graph.
pub fn bank_layout() -> Layout
    ensures { result ≡ bank_layout }
{
    Layout::new(Kinds::old(MAPS), SLOTS).unwrap()
}

/// What opens the accounts: a put for each, which the first caller makes before any shift.
pub fn opening_puts(alloc: Global) -> Result<Vec<Op>, AllocError>
    ensures { IfOk result (λ puts. puts.items ≡ first_puts ACCOUNTS) }
{
    let mut puts = Vec::new(alloc);
    for account in 0..ACCOUNTS {
        puts.push(Op::Put {
            key: Text::of_number(account),
            value: Text::of_number(BALANCE),
        })?;
    }
    Ok(puts)
}
