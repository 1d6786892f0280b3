// The rule of the table.
use crate::opening_words::OpeningWords;
use crate::views::{Cell, View};
use atomic_table::TableRule;
use mont_base::Layout;

/// What a table is told when it is made: the words with which the store opens, and how many callers
/// it has.
#[derive(Drop)]
pub struct Opening {
    pub layout: Layout,
    pub words: OpeningWords,
    pub callers: u64,
}

/// The table shows a core of the store.
pub struct Rule;

impl TableRule<Cell, View, Opening> for Rule {
    ghost use Rattle.heap_rule.specs.Rule.{ShowsCore};
    ghost use Rattle.heap_rule.specs.Views.{first_view};

    ghost holds = { ShowsCore };

    ghost first = { first_view };
}
