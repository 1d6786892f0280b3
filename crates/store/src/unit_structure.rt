// A structure of a unit, of one of the kinds.
ghost use Rattle.std.specs.Prelude.{◌≡◌, true, false, None, OnOk, IfErr, OnErr};
ghost use Rattle.mont_base.specs.declared.kinds.UnitKind.TheVariants as kinds;
ghost use Rattle.mont_laws.specs.Effects.{IsOpOf};
ghost use Rattle.heap.specs.GateAsked.{IsAskedOften};
ghost use Rattle.structure_call.specs.Calling.{HasAnsweredCall, LeavesCall, was_asked, was_checked, was_cut};
ghost use Rattle.structure_call.specs.Checking.{MayBeCalled};
ghost use Rattle.heap_pass.specs.KeptReceipt.{KeepsReceipt};
ghost use Rattle.structure_call.specs.Standing.{IsStanding};
ghost use Rattle.mont_base.specs.Layout.{is_of_kind, kind_of};
ghost use Rattle.store.specs.StoreCalls.{IsRange};
ghost use Rattle.store.specs.UnitAt.{HasRunOf, region_of, structure_kind};

use heap::Heap;
use heap_pass::Pass;
use index_kit::Index;
use mont_base::{CallRefusal, Gate, Op, PairList};
use pgraph::PGraph;
use pordered::POrdered;
use pqueue::PQueue;
use shard_map::MapShard;
use slots::Region;
use std::sync::Wait;

// A structure of one of the kinds.
#[derive(Drop)]
pub(crate) enum Structure<I: Index> {
    Map { unit: MapShard<I> },
    Queue { unit: PQueue },
    Graph { unit: PGraph },
    Ordered { unit: POrdered },
}

impl<I: Index> Structure<I> {
    // Carries an operation of the unit out, and keeps the receipt in the pass.
    pub(crate) fn perform<R: Wait, G: Gate>(
        &mut self,
        rt: &R,
        heap: &Heap,
        pass: &mut Pass<G>,
        op: &Op,
    ) -> Result<(), CallRefusal>
        requires stands { IsStanding heap.now (region_of self.old) }
        requires kind { is_of_kind (kind_of heap.now.opening.layout
            (region_of self.old).books.unit) (structure_kind self.old) ≡ true }
        requires pass { pass.old.ticket.table ≡ heap.now.table }
        requires op { IsOpOf heap.now.opening.layout (region_of self.old).books.unit op.now }
        ensures gate { IsAskedOften G.cuts G.endless pass.old.gate pass.new.gate (was_cut result) }
        ensures unasked { was_asked result ≡ false → pass.new.gate ≡ pass.old.gate }
        ensures answered { OnOk result (KeepsReceipt pass.old.receipts.items
            pass.new.receipts.items (HasAnsweredCall heap.now (region_of self.old)
            (region_of self.new) pass.old.ticket pass.new.ticket op.now)) }
        ensures kept { OnErr result (pass.new.receipts.items ≡ pass.old.receipts.items) }
        ensures refused { IfErr result (λ why. LeavesCall heap.now (region_of self.old)
            (region_of self.new) pass.old.ticket pass.new.ticket op.now why) }
        ensures checked { was_checked result ≡ true
            → MayBeCalled pass.old.ticket (region_of self.old) op.now }
        ensures stands { IsStanding heap.now (region_of self.new) }
        ensures kind { structure_kind self.new ≡ structure_kind self.old }
    {
        match self {
            Structure::Map { unit } => unit.perform(rt, heap, pass, op),
            Structure::Queue { unit } => unit.perform(rt, heap, pass, op),
            Structure::Graph { unit } => unit.perform(rt, heap, pass, op),
            Structure::Ordered { unit } => unit.perform(rt, heap, pass, op),
        }
    }

    // Gives the pairs of a range of the unit as it stands. It takes no memory.
    pub(crate) fn pairs(&self, op: &Op, pairs: &mut PairList)
        requires kind { structure_kind self.now ≡ kinds.Ordered }
        requires running { (region_of self.now).books.halted ≡ None }
        requires range { IsRange op.now }
        ensures { HasRunOf (region_of self.now) op.now pairs.new }
    {
        let Structure::Ordered { unit } = self else {
            unreachable!()
        };
        let Op::ORange { from, to, most, .. } = op else {
            unreachable!()
        };
        unit.pairs(*from, *to, *most, pairs);
    }

    // Gives the region back, and drops what the structure keeps in memory.
    pub(crate) fn into_region(self) -> Region
        ensures { result ≡ region_of self }
    {
        match self {
            Structure::Map { unit } => unit.into_region(),
            Structure::Queue { unit } => unit.into_region(),
            Structure::Graph { unit } => unit.into_region(),
            Structure::Ordered { unit } => unit.into_region(),
        }
    }
}
