// A store between whose map units four callers transfer amounts, each in a thread of its own. The
// total stands in what recovery rebuilds from an image that a crash may leave.
use crate::opened_account::Account;
use index_kit::SortedIndex;
use mont_base::{Kinds, Layout, Steady, Text};
use mont_image::pick;
use plain::{Contents, UnitState, recover};
use std::sync::Wait;
use std::thread::Threads;
use store::StoreRefusal;
use store_door::with_fresh;

// Every other word is lost in the crash, if it isn't durable.
const MASK: u64 = 0x5555_5555_5555_5555;

/// What the numbers come to that recovery rebuilds of a store of two maps, on which four callers
/// worked.
pub fn total_kept<R: AllocGlobal + Threads + Wait + Sync>(rt: &R) -> Result<u64, StoreRefusal> {
    let alloc = rt.alloc();
    let layout = Layout::new(Kinds::of_letters(b"mm")?, 32)?;
    let gates = vec![in alloc; Steady, Steady, Steady, Steady]?;
    let indexes = vec![in alloc; SortedIndex::new(alloc), SortedIndex::new(alloc)]?;
    let accounts = vec![in alloc;
        Account::new(),
        Account::new(),
        Account::new(),
        Account::new(),
    ]?;
    let (stopped, accounts) = with_fresh(rt, alloc, layout, gates, indexes, accounts)?;
    for account in &accounts {
        account.ended?;
    }
    let image = pick(alloc, &stopped.words, MASK)?;
    Ok(total_of(&recover(alloc, image.layout, image.words.as_slice())?))
}

// What the numbers of all maps come to.
fn total_of(contents: &Contents) -> u64 {
    let mut total = 0u64;
    for unit in contents.units.as_slice() {
        if let UnitState::Map { state } = unit {
            for (_account, amount) in state.iter() {
                total = total.wrapping_add(number_of(amount));
            }
        }
    }
    total
}

// The number whose digits a text is.
fn number_of(text: &Text) -> u64 {
    let mut number = 0u64;
    for at in 0..text.len() {
        let digit = text.byte(at).wrapping_sub(b'0');
        number = number.wrapping_mul(10).wrapping_add(u64::from(digit));
    }
    number
}
