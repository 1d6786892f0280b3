// An ordered unit of a store.
ghost use Rattle.std.specs.Prelude.{◌≡◌, ℕ, true, false, [], ◌∷◌, ◌++◌, Some, None, IfOk, OnOk, IfErr, OnErr};
ghost use Rattle.mont_base.specs.declared.kinds.UnitKind.TheVariants.{Ordered};
ghost use Rattle.mont_base.specs.Layout.{kind_of};
ghost use Rattle.mont_base.specs.State.{State};
ghost use Rattle.mont_base.specs.Structure.{IsStructure};
ghost use Rattle.mont_base.specs.Versions.{live_objects};
ghost use Rattle.mont_laws.specs.Effects.{IsOpOf};
ghost use Rattle.mont_laws.specs.Records.{live_of};
ghost use Rattle.heap.specs.GateAsked.{IsAskedOften};
ghost use Rattle.slots.specs.Books.{Agrees};
ghost use Rattle.structure_call.specs.Calling.{HasAnsweredCall, LeavesCall, was_asked, was_checked, was_cut};
ghost use Rattle.structure_call.specs.Checking.{MayBeCalled};
ghost use Rattle.heap_pass.specs.KeptReceipt.{KeepsReceipt};
ghost use Rattle.structure_call.specs.Standing.{IsStanding};
ghost use Rattle.shard_map.specs.MapShard.{IsMapUnit};

use crate::order_answers::answer_of;
use heap::Heap;
use heap_pass::{OfHeap, Pass, last_receipt};
use mont_base::{CallRefusal, Gate, Layout, Object, Op, Receipt};
use order_index::OrderIndex;
use shard_map::MapShard;
use slots::Region;
use std::alloc::{AllocError, Global};
use std::marker::Model;
use std::sync::Wait;

/// An ordered unit: the pairs stand in the records of its region, and an index keeps the live keys
/// in order, each with the slot of its record.
///
/// Contracts see it as the unit of a finite map that it is. The index of a unit in which a caller
/// was cut is of no use any more.
#[derive(Drop)]
pub struct POrdered {
    pub(crate) unit: MapShard<OrderIndex>,
}

impl Model for POrdered {
    ghost use Rattle.shard_map.specs.MapShard.{MapShown, map_shown_code};

    ghost Value = { MapShown };

    ghost coded = { map_shown_code };

    ghost view = { λ o. o.unit };
}

impl OfHeap for POrdered {
    ghost use Rattle.structure_call.specs.Standing.{IsStanding, standing_once};

    ghost fits = { λ heap o. IsStanding heap o.region };

    ghost fits_once = { λ heap o. standing_once heap o.region };
}

impl POrdered {
    /// The ordered unit of a region in which nothing is live. It takes no memory yet.
    pub fn fresh(alloc: Global, layout: Layout, region: Region) -> Result<POrdered, AllocError>
        requires layout { region.books.layout ≡ layout }
        requires kind { kind_of layout region.books.unit ≡ Some Ordered }
        requires agrees { Agrees region }
        requires none { (identity : ℕ) → live_of identity region.seat.known.part.records ≡ None }
        ensures region { IfOk result (λ o. o.region ≡ region) }
    {
        Ok(POrdered {
            unit: MapShard::fresh(layout, region, OrderIndex::new(alloc)),
        })
    }

    /// The ordered unit of a region whose live objects these are, by rising slot. They make a map.
    pub fn rebuild(
        alloc: Global,
        layout: Layout,
        region: Region,
        objects: &[Object],
    ) -> Result<POrdered, AllocError>
        requires layout { region.books.layout ≡ layout }
        requires kind { kind_of layout region.books.unit ≡ Some Ordered }
        requires agrees { Agrees region }
        requires live { objects.now ≡ live_objects region.seat.known.part.records }
        requires structure { (state : State)
            × IsStructure layout region.books.unit objects.now state }
        ensures region { IfOk result (λ o. o.region ≡ region) }
    {
        let unit = MapShard::rebuild(layout, region, objects, OrderIndex::new(alloc))?;
        Ok(POrdered { unit })
    }

    /// Carries an operation out, answers it with one entry, and keeps the receipt in the pass. It
    /// may wait for the clock to stand still.
    ///
    /// Memory is taken before the first step; a refusal for want of it leaves all as it was but for
    /// spare room.
    pub fn perform<R: Wait, G: Gate>(
        &mut self,
        rt: &R,
        heap: &Heap,
        pass: &mut Pass<G>,
        op: &Op,
    ) -> Result<(), CallRefusal>
        requires stands { IsStanding heap.now self.old.region }
        requires pass { pass.old.ticket.table ≡ heap.now.table }
        requires op { IsOpOf heap.now.opening.layout self.old.region.books.unit op.now }
        ensures gate { IsAskedOften G.cuts G.endless pass.old.gate pass.new.gate (was_cut result) }
        ensures unasked { was_asked result ≡ false → pass.new.gate ≡ pass.old.gate }
        ensures answered { OnOk result (KeepsReceipt pass.old.receipts.items
            pass.new.receipts.items (HasAnsweredCall heap.now self.old.region self.new.region
            pass.old.ticket pass.new.ticket op.now)) }
        ensures kept { OnErr result (pass.new.receipts.items ≡ pass.old.receipts.items) }
        ensures refused { IfErr result (λ why. LeavesCall heap.now self.old.region self.new.region
            pass.old.ticket pass.new.ticket op.now why) }
        ensures checked { was_checked result ≡ true
            → MayBeCalled pass.old.ticket self.old.region op.now }
        ensures stands { IsStanding heap.now self.new.region }
        ensures unit { IsMapUnit self.new.region self.new.places }
    {
        match answer_of(&self.unit, op) {
            Some(reply) => self.unit.answer(heap, pass, op, &reply),
            None => self.unit.perform(rt, heap, pass, op),
        }
    }

    /// The same as `perform`, and answers a copy of the receipt.
    pub fn apply<R: Wait, G: Gate>(
        &mut self,
        rt: &R,
        heap: &Heap,
        pass: &mut Pass<G>,
        op: &Op,
    ) -> Result<Receipt, CallRefusal>
        requires stands { IsStanding heap.now self.old.region }
        requires pass { pass.old.ticket.table ≡ heap.now.table }
        requires op { IsOpOf heap.now.opening.layout self.old.region.books.unit op.now }
        ensures gate { IsAskedOften G.cuts G.endless pass.old.gate pass.new.gate (was_cut result) }
        ensures unasked { was_asked result ≡ false → pass.new.gate ≡ pass.old.gate }
        ensures answered { IfOk result (λ receipt. HasAnsweredCall heap.now self.old.region
            self.new.region pass.old.ticket pass.new.ticket op.now receipt) }
        ensures receipts { IfOk result (λ receipt. pass.new.receipts.items
            ≡ pass.old.receipts.items ++ receipt ∷ []) }
        ensures kept { OnErr result (pass.new.receipts.items ≡ pass.old.receipts.items) }
        ensures refused { IfErr result (λ why. LeavesCall heap.now self.old.region self.new.region
            pass.old.ticket pass.new.ticket op.now why) }
        ensures checked { was_checked result ≡ true
            → MayBeCalled pass.old.ticket self.old.region op.now }
        ensures stands { IsStanding heap.now self.new.region }
        ensures unit { IsMapUnit self.new.region self.new.places }
    {
        self.perform(rt, heap, pass, op)?;
        Ok(last_receipt(&pass.receipts))
    }

    /// The unit's region.
    pub fn region(&self) -> &Region
        ensures region { result.now ≡ self.now.region }
        ensures unit { IsMapUnit self.now.region self.now.places }
    {
        self.unit.region()
    }

    /// Gives the region back, and drops the index.
    pub fn into_region(self) -> Region
        ensures region { result ≡ self.region }
        ensures unit { IsMapUnit self.region self.places }
    {
        let POrdered { unit } = self;
        unit.into_region()
    }
}
