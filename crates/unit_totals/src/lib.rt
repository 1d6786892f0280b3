//! What the values of map units come to, over histories: where each change is half of a transfer,
//! a crash keeps the total. These are laws over the definitions; nothing here runs.
#![tactic(auto)]

mod map_books;
mod naming;
mod together;
mod transfers;

pub use map_books::books_balance;
pub use naming::{callers_name_each_once, each_once_sums_up};
pub use together::{entry_left_alone_is_behind_cut, one_epoch_stands_together};
pub use transfers::stopped_stores_keep_totals;
