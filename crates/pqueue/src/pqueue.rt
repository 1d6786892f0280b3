// A queue as a unit of a store.
ghost use Rattle.std.specs.Prelude.{◌≡◌, ◌+◌, ◌<◌, ◌≤◌, [], ◌∷◌, ◌++◌, true, false, None, Some, option_to_list, slice_get, if◌then◌else◌, IsTrue, IfOk, OnOk, IfErr, OnErr};
ghost use Rattle.std.specs.VecDeque.{deque_len, deque_capacity};
ghost use Rattle.mont_base.specs.declared.operation.Reply.TheVariants.{Was};
ghost use Rattle.mont_base.specs.declared.record.Change.TheVariants.{Remove};
ghost use Rattle.mont_laws.specs.Effects.{IsOpOf};
ghost use Rattle.heap.specs.GateAsked.{IsAskedOften};
ghost use Rattle.heap_pass.specs.Spare.{spare_of};
ghost use Rattle.slots.specs.Books.{Agrees};
ghost use Rattle.structure_call.specs.Planning.{IsPlan};
ghost use Rattle.structure_call.specs.Standing.{IsStanding};
ghost use Rattle.structure_call.specs.Checking.{MayBeCalled};
ghost use Rattle.structure_call.specs.Calling.{HasAnsweredCall, LeavesCall, was_asked, was_checked, was_cut};
ghost use Rattle.heap_pass.specs.KeptReceipt.{KeepsReceipt};
ghost use Rattle.pqueue.specs.PQueue.{IsOfQueue, HasNoneLive, HoldsItems, serials_taken};
ghost use Rattle.pqueue.specs.QueuePlan.{ChangesNothing, ChangesQueue, IsEnq, adds_item};

use crate::queue_plan::{adds_item, first_of, follow, look_up};
use crate::queued::Queued;
use heap::Heap;
use heap_pass::{OfHeap, Pass, last_receipt};
use mont_base::{CallRefusal, Change, Gate, Op, Receipt, Reply};
use payload::item_body;
use slots::Region;
use std::alloc::{AllocError, Global};
use std::collections::VecDeque;
use std::marker::Model;
use std::sync::Wait;
use structure_call::{carry_out, check_numbers, check_running};

/// A queue as a unit of a store.
///
/// Contracts see its region, and the items that stand in it, by rising serial. They are exactly the
/// live ones, unless a caller was cut in the unit: then they are of no use any more.
#[derive(Drop)]
pub struct PQueue {
    pub(crate) region: Region,
    pub(crate) items: VecDeque<Queued>,
}

impl Model for PQueue {
    ghost use Rattle.pqueue.specs.PQueue.{PQueueShown, IsQueueUnit};

    ghost Value = { PQueueShown };

    ghost view = { λ q. record { region = q.region; items = q.items.items } };

    ghost invariant = { λ q. IsQueueUnit q.region q.items.items };
}

impl OfHeap for PQueue {
    ghost use Rattle.structure_call.specs.Standing.{IsStanding, standing_once};

    ghost fits = { λ heap q. IsStanding heap q.region };

    ghost fits_once = { λ heap q. standing_once heap q.region };
}

impl PQueue {
    /// The queue of a region in which no item is live.
    pub fn fresh(alloc: Global, region: Region) -> Result<PQueue, AllocError>
        requires agrees { Agrees region }
        requires of_queue { IsOfQueue region }
        requires empty { HasNoneLive region }
        ensures region { IfOk result (λ q. q.region ≡ region) }
        ensures items { IfOk result (λ q. q.items ≡ []) }
    {
        Ok(PQueue {
            region,
            items: VecDeque::new(alloc),
        })
    }

    /// Carries an operation out, as one entry of the unit, and keeps its receipt in the pass.
    ///
    /// It may wait for the clock to stand still.
    pub fn perform<R: Wait, G: Gate>(
        &mut self,
        rt: &R,
        heap: &Heap,
        pass: &mut Pass<G>,
        op: &Op,
    ) -> Result<(), CallRefusal>
        requires stands { IsStanding heap.now self.old.region }
        requires pass { pass.old.ticket.table ≡ heap.now.table }
        requires op { IsOpOf heap.now.opening.layout self.old.region.books.unit op.now }
        ensures gate { IsAskedOften G.cuts G.endless pass.old.gate pass.new.gate
            (was_cut result) }
        ensures unasked { was_asked result ≡ false → pass.new.gate ≡ pass.old.gate }
        ensures answered { OnOk result (KeepsReceipt pass.old.receipts.items
            pass.new.receipts.items (HasAnsweredCall heap.now self.old.region self.new.region
            pass.old.ticket pass.new.ticket op.now)) }
        ensures kept { OnErr result (pass.new.receipts.items ≡ pass.old.receipts.items) }
        ensures refused { IfErr result (λ why. LeavesCall heap.now self.old.region
            self.new.region pass.old.ticket pass.new.ticket op.now why) }
        ensures checked { was_checked result ≡ true
            → MayBeCalled pass.old.ticket self.old.region op.now }
        ensures stands { IsStanding heap.now self.new.region }
        ensures items { HoldsItems self.new.region self.new.items }
        ensures serial { OnOk result (self.new.region.books.serial
            ≡ self.old.region.books.serial + serials_taken op.now) }
    {
        match *op {
            Op::Enq { item, .. } => self.enq(rt, heap, pass, op, item),
            Op::Deq { .. } => match first_of(&self.items) {
                Some(first) => self.deq(rt, heap, pass, op, first),
                None => self.look(rt, heap, pass, op),
            },
            _ => self.look(rt, heap, pass, op),
        }
    }

    // An item comes in after the others.
    fn enq<R: Wait, G: Gate>(
        &mut self,
        rt: &R,
        heap: &Heap,
        pass: &mut Pass<G>,
        op: &Op,
        item: u64,
    ) -> Result<(), CallRefusal>
        requires stands { IsStanding heap.now self.old.region }
        requires pass { pass.old.ticket.table ≡ heap.now.table }
        requires op { IsOpOf heap.now.opening.layout self.old.region.books.unit op.now }
        requires enq { IsEnq op.now item }
        ensures gate { IsAskedOften G.cuts G.endless pass.old.gate pass.new.gate
            (was_cut result) }
        ensures unasked { was_asked result ≡ false → pass.new.gate ≡ pass.old.gate }
        ensures answered { OnOk result (KeepsReceipt pass.old.receipts.items
            pass.new.receipts.items (HasAnsweredCall heap.now self.old.region self.new.region
            pass.old.ticket pass.new.ticket op.now)) }
        ensures kept { OnErr result (pass.new.receipts.items ≡ pass.old.receipts.items) }
        ensures refused { IfErr result (λ why. LeavesCall heap.now self.old.region
            self.new.region pass.old.ticket pass.new.ticket op.now why) }
        ensures checked { was_checked result ≡ true
            → MayBeCalled pass.old.ticket self.old.region op.now }
        ensures stands { IsStanding heap.now self.new.region }
        ensures items { HoldsItems self.new.region self.new.items }
        ensures serial { OnOk result (self.new.region.books.serial
            ≡ self.old.region.books.serial + serials_taken op.now) }
    {
        let body = item_body(self.region.next_serial(), item);
        let change = Some(Change::Insert { body });
        self.carry(rt, heap, pass, op, &Reply::Nothing, &change)
    }

    // The first item goes, which is this one.
    fn deq<R: Wait, G: Gate>(
        &mut self,
        rt: &R,
        heap: &Heap,
        pass: &mut Pass<G>,
        op: &Op,
        first: Queued,
    ) -> Result<(), CallRefusal>
        requires stands { IsStanding heap.now self.old.region }
        requires pass { pass.old.ticket.table ≡ heap.now.table }
        requires first { slice_get self.old.items 0 ≡ Some first }
        requires plan { self.old.region.books.halted ≡ None → IsPlan self.old.region op.now
            (Was first.item) (Remove first.slot first.identity ∷ []) }
        requires takes { serials_taken op.now ≡ 0 }
        ensures gate { IsAskedOften G.cuts G.endless pass.old.gate pass.new.gate
            (was_cut result) }
        ensures unasked { was_asked result ≡ false → pass.new.gate ≡ pass.old.gate }
        ensures answered { OnOk result (KeepsReceipt pass.old.receipts.items
            pass.new.receipts.items (HasAnsweredCall heap.now self.old.region self.new.region
            pass.old.ticket pass.new.ticket op.now)) }
        ensures kept { OnErr result (pass.new.receipts.items ≡ pass.old.receipts.items) }
        ensures refused { IfErr result (λ why. LeavesCall heap.now self.old.region
            self.new.region pass.old.ticket pass.new.ticket op.now why) }
        ensures checked { was_checked result ≡ true
            → MayBeCalled pass.old.ticket self.old.region op.now }
        ensures stands { IsStanding heap.now self.new.region }
        ensures items { HoldsItems self.new.region self.new.items }
        ensures serial { OnOk result (self.new.region.books.serial
            ≡ self.old.region.books.serial + serials_taken op.now) }
    {
        let Queued {
            slot,
            identity,
            item,
            ..
        } = first;
        let change = Some(Change::Remove { slot, identity });
        self.carry(rt, heap, pass, op, &Reply::Was { value: item }, &change)
    }

    // Nothing changes.
    #[inline(never)]
    fn look<R: Wait, G: Gate>(
        &mut self,
        rt: &R,
        heap: &Heap,
        pass: &mut Pass<G>,
        op: &Op,
    ) -> Result<(), CallRefusal>
        requires stands { IsStanding heap.now self.old.region }
        requires pass { pass.old.ticket.table ≡ heap.now.table }
        requires op { IsOpOf heap.now.opening.layout self.old.region.books.unit op.now }
        requires looks { ChangesNothing self.old.items op.now }
        ensures gate { IsAskedOften G.cuts G.endless pass.old.gate pass.new.gate
            (was_cut result) }
        ensures unasked { was_asked result ≡ false → pass.new.gate ≡ pass.old.gate }
        ensures answered { OnOk result (KeepsReceipt pass.old.receipts.items
            pass.new.receipts.items (HasAnsweredCall heap.now self.old.region self.new.region
            pass.old.ticket pass.new.ticket op.now)) }
        ensures kept { OnErr result (pass.new.receipts.items ≡ pass.old.receipts.items) }
        ensures refused { IfErr result (λ why. LeavesCall heap.now self.old.region
            self.new.region pass.old.ticket pass.new.ticket op.now why) }
        ensures checked { was_checked result ≡ true
            → MayBeCalled pass.old.ticket self.old.region op.now }
        ensures stands { IsStanding heap.now self.new.region }
        ensures items { HoldsItems self.new.region self.new.items }
        ensures serial { OnOk result (self.new.region.books.serial
            ≡ self.old.region.books.serial + serials_taken op.now) }
    {
        let reply = look_up(&self.items, op);
        self.carry(rt, heap, pass, op, &reply, &None)
    }

    // Carries an operation out that is planned so where no caller was cut in the unit.
    #[inline(always)]
    fn carry<R: Wait, G: Gate>(
        &mut self,
        rt: &R,
        heap: &Heap,
        pass: &mut Pass<G>,
        op: &Op,
        reply: &Reply,
        change: &Option<Change>,
    ) -> Result<(), CallRefusal>
        requires stands { IsStanding heap.now self.old.region }
        requires pass { pass.old.ticket.table ≡ heap.now.table }
        requires plan { self.old.region.books.halted ≡ None → IsPlan self.old.region op.now
            reply.now (option_to_list change.now) }
        requires change { ChangesQueue self.old.region.books.serial self.old.items change.now }
        requires takes { serials_taken op.now ≡ (if adds_item change.now then 1 else 0) }
        ensures gate { IsAskedOften G.cuts G.endless pass.old.gate pass.new.gate
            (was_cut result) }
        ensures unasked { was_asked result ≡ false → pass.new.gate ≡ pass.old.gate }
        ensures answered { OnOk result (KeepsReceipt pass.old.receipts.items
            pass.new.receipts.items (HasAnsweredCall heap.now self.old.region self.new.region
            pass.old.ticket pass.new.ticket op.now)) }
        ensures kept { OnErr result (pass.new.receipts.items ≡ pass.old.receipts.items) }
        ensures refused { IfErr result (λ why. LeavesCall heap.now self.old.region
            self.new.region pass.old.ticket pass.new.ticket op.now why) }
        ensures checked { was_checked result ≡ true
            → MayBeCalled pass.old.ticket self.old.region op.now }
        ensures stands { IsStanding heap.now self.new.region }
        ensures items { HoldsItems self.new.region self.new.items }
        ensures serial { OnOk result (self.new.region.books.serial
            ≡ self.old.region.books.serial + serials_taken op.now) }
    {
        check_running(heap, &mut self.region, pass)?;
        let adds = adds_item(change);
        let changes = change.as_slice();
        check_numbers(heap, &mut self.region, pass, changes, adds)?;
        let Ok(()) = make_room(adds, &mut self.items, pass) else {
            return Err(CallRefusal::Memory);
        };
        let slot = carry_out(rt, heap, &mut self.region, pass, op, reply, changes)?;
        follow(&self.region, &mut self.items, change, slot);
        Ok(())
    }

    /// The same as `perform`, and answers a copy of the receipt.
    pub fn apply<R: Wait, G: Gate>(
        &mut self,
        rt: &R,
        heap: &Heap,
        pass: &mut Pass<G>,
        op: &Op,
    ) -> Result<Receipt, CallRefusal>
        requires stands { IsStanding heap.now self.old.region }
        requires pass { pass.old.ticket.table ≡ heap.now.table }
        requires op { IsOpOf heap.now.opening.layout self.old.region.books.unit op.now }
        ensures gate { IsAskedOften G.cuts G.endless pass.old.gate pass.new.gate
            (was_cut result) }
        ensures unasked { was_asked result ≡ false → pass.new.gate ≡ pass.old.gate }
        ensures answered { IfOk result (λ receipt. HasAnsweredCall heap.now self.old.region
            self.new.region pass.old.ticket pass.new.ticket op.now receipt) }
        ensures receipts { IfOk result (λ receipt. pass.new.receipts.items
            ≡ pass.old.receipts.items ++ receipt ∷ []) }
        ensures kept { OnErr result (pass.new.receipts.items ≡ pass.old.receipts.items) }
        ensures refused { IfErr result (λ why. LeavesCall heap.now self.old.region
            self.new.region pass.old.ticket pass.new.ticket op.now why) }
        ensures checked { was_checked result ≡ true
            → MayBeCalled pass.old.ticket self.old.region op.now }
        ensures stands { IsStanding heap.now self.new.region }
        ensures items { HoldsItems self.new.region self.new.items }
        ensures serial { OnOk result (self.new.region.books.serial
            ≡ self.old.region.books.serial + serials_taken op.now) }
    {
        self.perform(rt, heap, pass, op)?;
        Ok(last_receipt(&pass.receipts))
    }

    /// The region of the unit.
    pub fn region(&self) -> &Region
        ensures region { result.now ≡ self.now.region }
        ensures agrees { Agrees result.now }
    {
        &self.region
    }

    /// Gives the region back, and drops the rest.
    pub fn into_region(self) -> Region
        ensures region { result ≡ self.region }
        ensures agrees { Agrees result }
    {
        let PQueue { region, items: _ } = self;
        region
    }
}

// Makes room for the receipt, and for one more item where one comes in.
fn make_room<G: Gate>(
    adds: bool,
    items: &mut VecDeque<Queued>,
    pass: &mut Pass<G>,
) -> Result<(), AllocError>
    ensures items { items.new.items ≡ items.old.items }
    ensures ticket { pass.new.ticket ≡ pass.old.ticket }
    ensures gate { pass.new.gate ≡ pass.old.gate }
    ensures receipts { pass.new.receipts.items ≡ pass.old.receipts.items }
    ensures room { IsTrue adds
        → OnOk result (deque_len items.new < deque_capacity items.new) }
    ensures spare { OnOk result (1 ≤ spare_of pass.new.receipts) }
{
    if adds {
        items.reserve(1)?;
    }
    pass.reserve()?;
    Ok(())
}
