// Which operations a store of a layout can be asked.
ghost use Rattle.std.specs.Prelude.{◌↔◌, All, IsTrue};
ghost use Rattle.store_bench.specs.AskableOps.{CanBeAsked};

use mont_base::{Layout, Op};

// Whether all of them can be asked.
pub(crate) fn can_all_be_asked(layout: &Layout, ops: &[Op]) -> bool
    ensures { IsTrue result ↔ All (CanBeAsked layout.now) ops.now }
{
    ops.iter().all(|op| can_be_asked(layout, op))
}

fn can_be_asked(layout: &Layout, op: &Op) -> bool
    ensures { IsTrue result ↔ CanBeAsked layout.now op.now }
{
    op.unit(*layout).is_some()
}
