// A call of a map unit, or one on a key of an ordered unit.
ghost use Rattle.std.specs.Prelude.{◌≡◌, ◌≤◌, true, false, [], ◌∷◌, ◌++◌, None, IsTrue, option_to_list, IfOk, OnOk, IfErr, OnErr};
ghost use Rattle.heap.specs.GateAsked.{IsAskedOften};
ghost use Rattle.mont_laws.specs.Effects.{IsOpOf};
ghost use Rattle.heap_pass.specs.Spare.{spare_of};
ghost use Rattle.structure_call.specs.Calling.{HasAnsweredCall, LeavesCall, was_asked, was_checked, was_cut};
ghost use Rattle.structure_call.specs.Checking.{MayBeCalled};
ghost use Rattle.heap_pass.specs.KeptReceipt.{KeepsReceipt};
ghost use Rattle.structure_call.specs.Planning.{IsPlan};
ghost use Rattle.structure_call.specs.Standing.{IsStanding};
ghost use Rattle.shard_map.specs.MapCall.{places_behind, AsksKey, HasRoomFor, AddsKey};
ghost use Rattle.shard_map.specs.MapPlan.{removal};
ghost use Rattle.shard_map.specs.MapShard.{IsMapUnit};

use crate::map_plan::{Found, find_asked, removal, reply_of, setting};
use crate::map_shard::MapShard;
use heap::Heap;
use heap_pass::{Pass, last_receipt};
use index_kit::Index;
use mont_base::{CallRefusal, Change, Gate, Op, Receipt, Reply, Slot};
use payload::pair_body;
use std::alloc::AllocError;
use std::sync::Wait;
use structure_call::{carry_out, check_numbers, check_running};

impl<I: Index> MapShard<I> {
    /// Carries an operation on a key of the unit out, answers it with one entry, and keeps the
    /// receipt in the pass. It may wait for the clock to stand still.
    ///
    /// Memory is taken before the first step; a refusal for want of it leaves all as it was but for
    /// spare room.
    pub fn perform<R: Wait, G: Gate>(
        &mut self,
        rt: &R,
        heap: &Heap,
        pass: &mut Pass<G>,
        op: &Op,
    ) -> Result<(), CallRefusal>
        requires stands { IsStanding heap.now self.old.region }
        requires pass { pass.old.ticket.table ≡ heap.now.table }
        requires op { IsOpOf heap.now.opening.layout self.old.region.books.unit op.now }
        requires key { AsksKey op.now }
        ensures gate { IsAskedOften G.cuts G.endless pass.old.gate pass.new.gate (was_cut result) }
        ensures unasked { was_asked result ≡ false → pass.new.gate ≡ pass.old.gate }
        ensures answered { OnOk result (KeepsReceipt pass.old.receipts.items
            pass.new.receipts.items (HasAnsweredCall heap.now self.old.region self.new.region
            pass.old.ticket pass.new.ticket op.now)) }
        ensures kept { OnErr result (pass.new.receipts.items ≡ pass.old.receipts.items) }
        ensures refused { IfErr result (λ why. LeavesCall heap.now self.old.region self.new.region
            pass.old.ticket pass.new.ticket op.now why) }
        ensures checked { was_checked result ≡ true
            → MayBeCalled pass.old.ticket self.old.region op.now }
        ensures stands { IsStanding heap.now self.new.region }
        ensures unit { IsMapUnit self.new.region self.new.places }
    {
        let found = find_asked(&self.region, &self.index, op);
        let reply = reply_of(&found);
        match op {
            Op::Put { key, value } | Op::OPut { key, value, .. } => {
                self.set(
                    rt,
                    heap,
                    pass,
                    op,
                    &reply,
                    setting(&found, pair_body(key, value)),
                )
            }
            Op::Get { key } | Op::OGet { key, .. } => {
                let _key = key;
                self.answer(heap, pass, op, &reply)
            }
            Op::Del { key } | Op::ODel { key, .. } => {
                let _key = key;
                self.remove(rt, heap, pass, op, &reply, &found)
            }
            _ => {
                // The unit keeps pairs, so that an operation of another kind changes nothing.
                let _region = self.region();
                self.answer(heap, pass, op, &reply)
            }
        }
    }

    // Carries an operation out that makes this change.
    fn set<R: Wait, G: Gate>(
        &mut self,
        rt: &R,
        heap: &Heap,
        pass: &mut Pass<G>,
        op: &Op,
        reply: &Reply,
        change: Change,
    ) -> Result<(), CallRefusal>
        requires stands { IsStanding heap.now self.old.region }
        requires pass { pass.old.ticket.table ≡ heap.now.table }
        requires plan { self.old.region.books.halted ≡ None
            → IsPlan self.old.region op.now reply.now (change ∷ []) }
        ensures gate { IsAskedOften G.cuts G.endless pass.old.gate pass.new.gate (was_cut result) }
        ensures unasked { was_asked result ≡ false → pass.new.gate ≡ pass.old.gate }
        ensures answered { OnOk result (KeepsReceipt pass.old.receipts.items
            pass.new.receipts.items (HasAnsweredCall heap.now self.old.region self.new.region
            pass.old.ticket pass.new.ticket op.now)) }
        ensures kept { OnErr result (pass.new.receipts.items ≡ pass.old.receipts.items) }
        ensures refused { IfErr result (λ why. LeavesCall heap.now self.old.region self.new.region
            pass.old.ticket pass.new.ticket op.now why) }
        ensures checked { was_checked result ≡ true
            → MayBeCalled pass.old.ticket self.old.region op.now }
        ensures stands { IsStanding heap.now self.new.region }
        ensures unit { IsMapUnit self.new.region self.new.places }
    {
        self.carry(rt, heap, pass, op, reply, &[change])?;
        Ok(())
    }

    // Carries an operation out that removes what was found, if anything was.
    fn remove<R: Wait, G: Gate>(
        &mut self,
        rt: &R,
        heap: &Heap,
        pass: &mut Pass<G>,
        op: &Op,
        reply: &Reply,
        found: &Option<Found>,
    ) -> Result<(), CallRefusal>
        requires stands { IsStanding heap.now self.old.region }
        requires pass { pass.old.ticket.table ≡ heap.now.table }
        requires plan { self.old.region.books.halted ≡ None
            → IsPlan self.old.region op.now reply.now (option_to_list (removal found.now)) }
        ensures gate { IsAskedOften G.cuts G.endless pass.old.gate pass.new.gate (was_cut result) }
        ensures unasked { was_asked result ≡ false → pass.new.gate ≡ pass.old.gate }
        ensures answered { OnOk result (KeepsReceipt pass.old.receipts.items
            pass.new.receipts.items (HasAnsweredCall heap.now self.old.region self.new.region
            pass.old.ticket pass.new.ticket op.now)) }
        ensures kept { OnErr result (pass.new.receipts.items ≡ pass.old.receipts.items) }
        ensures refused { IfErr result (λ why. LeavesCall heap.now self.old.region self.new.region
            pass.old.ticket pass.new.ticket op.now why) }
        ensures checked { was_checked result ≡ true
            → MayBeCalled pass.old.ticket self.old.region op.now }
        ensures stands { IsStanding heap.now self.new.region }
        ensures unit { IsMapUnit self.new.region self.new.places }
    {
        let change = removal(found);
        self.carry(rt, heap, pass, op, reply, change.as_slice())?;
        Ok(())
    }

    // Carries an operation out that is planned so where no caller was cut in the unit.
    #[inline(always)]
    fn carry<R: Wait, G: Gate>(
        &mut self,
        rt: &R,
        heap: &Heap,
        pass: &mut Pass<G>,
        op: &Op,
        reply: &Reply,
        changes: &[Change],
    ) -> Result<(), CallRefusal>
        requires stands { IsStanding heap.now self.old.region }
        requires pass { pass.old.ticket.table ≡ heap.now.table }
        requires plan { self.old.region.books.halted ≡ None
            → IsPlan self.old.region op.now reply.now changes.now }
        ensures gate { IsAskedOften G.cuts G.endless pass.old.gate pass.new.gate (was_cut result) }
        ensures unasked { was_asked result ≡ false → pass.new.gate ≡ pass.old.gate }
        ensures answered { OnOk result (KeepsReceipt pass.old.receipts.items
            pass.new.receipts.items (HasAnsweredCall heap.now self.old.region self.new.region
            pass.old.ticket pass.new.ticket op.now)) }
        ensures kept { OnErr result (pass.new.receipts.items ≡ pass.old.receipts.items) }
        ensures refused { IfErr result (λ why. LeavesCall heap.now self.old.region self.new.region
            pass.old.ticket pass.new.ticket op.now why) }
        ensures checked { was_checked result ≡ true
            → MayBeCalled pass.old.ticket self.old.region op.now }
        ensures stands { IsStanding heap.now self.new.region }
        ensures unit { IsMapUnit self.new.region self.new.places }
    {
        check_running(heap, &mut self.region, pass)?;
        check_numbers(heap, &mut self.region, pass, changes, false)?;
        let Ok(()) = make_room(&mut self.index, pass, changes) else {
            return Err(CallRefusal::Memory);
        };
        let slot = carry_out(rt, heap, &mut self.region, pass, op, reply, changes)?;
        follow(&mut self.index, op, slot);
        Ok(())
    }

    /// The same as `perform`, and answers a copy of the receipt.
    pub fn apply<R: Wait, G: Gate>(
        &mut self,
        rt: &R,
        heap: &Heap,
        pass: &mut Pass<G>,
        op: &Op,
    ) -> Result<Receipt, CallRefusal>
        requires stands { IsStanding heap.now self.old.region }
        requires pass { pass.old.ticket.table ≡ heap.now.table }
        requires op { IsOpOf heap.now.opening.layout self.old.region.books.unit op.now }
        requires key { AsksKey op.now }
        ensures gate { IsAskedOften G.cuts G.endless pass.old.gate pass.new.gate (was_cut result) }
        ensures unasked { was_asked result ≡ false → pass.new.gate ≡ pass.old.gate }
        ensures answered { IfOk result (λ receipt. HasAnsweredCall heap.now self.old.region
            self.new.region pass.old.ticket pass.new.ticket op.now receipt) }
        ensures receipts { IfOk result (λ receipt. pass.new.receipts.items
            ≡ pass.old.receipts.items ++ receipt ∷ []) }
        ensures kept { OnErr result (pass.new.receipts.items ≡ pass.old.receipts.items) }
        ensures refused { IfErr result (λ why. LeavesCall heap.now self.old.region self.new.region
            pass.old.ticket pass.new.ticket op.now why) }
        ensures checked { was_checked result ≡ true
            → MayBeCalled pass.old.ticket self.old.region op.now }
        ensures stands { IsStanding heap.now self.new.region }
        ensures unit { IsMapUnit self.new.region self.new.places }
    {
        self.perform(rt, heap, pass, op)?;
        Ok(last_receipt(&pass.receipts))
    }
}

// Makes room for the receipt, and in the index for a key that is new.
fn make_room<I: Index, G: Gate>(
    index: &mut I,
    pass: &mut Pass<G>,
    changes: &[Change],
) -> Result<(), AllocError>
    ensures places { I.places index.new ≡ I.places index.old }
    ensures ticket { pass.new.ticket ≡ pass.old.ticket }
    ensures gate { pass.new.gate ≡ pass.old.gate }
    ensures receipts { pass.new.receipts.items ≡ pass.old.receipts.items }
    ensures receipt { OnOk result (1 ≤ spare_of pass.new.receipts) }
    ensures key { OnOk result (AddsKey changes.now → 1 ≤ I.spare index.new) }
{
    pass.reserve()?;
    if let [Change::Insert { .. }] = changes {
        index.reserve()?;
    }
    Ok(())
}

// The index follows an operation whose last record stands in this slot; with no record it stays.
pub(crate) fn follow<I: Index>(index: &mut I, op: &Op, slot: Option<Slot>)
    requires { HasRoomFor (I.places index.old) (I.spare index.old) op.now }
    ensures { I.places index.new ≡ places_behind (I.places index.old) op.now slot }
{
    let Some(slot) = slot else {
        return;
    };
    match op {
        Op::Put { key, .. } | Op::OPut { key, .. } => {
            index.put(*key, slot);
        }
        Op::Del { key } | Op::ODel { key, .. } => {
            index.remove(*key);
        }
        _ => {}
    }
}
