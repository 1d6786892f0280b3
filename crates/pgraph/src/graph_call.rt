// A call of a graph unit.
ghost use Rattle.std.specs.Prelude.{◌≡◌, ◌≤◌, true, false, [], ◌∷◌, ◌++◌, None, Some, All, IfOk, OnOk, IfErr, OnErr};
ghost use Rattle.std.specs.Option.{option_copied};
ghost use Rattle.mont_base.specs.declared.kinds.UnitKind.TheVariants as kinds;
ghost use Rattle.mont_base.specs.declared.refusal.CallRefusal.TheVariants.{Memory};
ghost use Rattle.mont_base.specs.Layout.{kind_of};
ghost use Rattle.mont_laws.specs.Effects.{IsOpOf};
ghost use Rattle.heap.specs.GateAsked.{IsAskedOften};
ghost use Rattle.heap_pass.specs.Spare.{spare_of};
ghost use Rattle.slots.specs.Books.{Agrees};
ghost use Rattle.slots.specs.WrittenRecords.{NamesLive};
ghost use Rattle.structure_call.specs.Calling.{HasAnsweredCall, LeavesCall, was_asked, was_checked, was_cut};
ghost use Rattle.structure_call.specs.Checking.{EndsCount, MayBeCalled};
ghost use Rattle.heap_pass.specs.KeptReceipt.{KeepsReceipt};
ghost use Rattle.structure_call.specs.Planning.{first_at_end};
ghost use Rattle.structure_call.specs.Standing.{IsStanding};
ghost use Rattle.pgraph.specs.GraphEdit.{Fits, changes_of, prepared, node_by, nodes_behind, nodes_with};
ghost use Rattle.pgraph.specs.GraphIndex.{part_of};
ghost use Rattle.pgraph.specs.GraphCall.{AreLiveEdges, EndsAtEdge, HasNode, HaveNumbers, record_at, restored};
ghost use Rattle.pgraph.specs.PGraph.{IsGraphUnit};

use crate::graph_edit::{GraphEdit, list_changes, prepare, setting};
use crate::graph_index::GraphIndex;
use crate::graph_plan::{GraphPlan, look_up, plan};
use crate::node::{Name, Node};
use crate::pgraph::PGraph;
use heap::Heap;
use heap_pass::{Pass, last_receipt};
use mont_base::{CallRefusal, Change, Gate, Held, Op, Receipt, Slot};
use slots::Region;
use std::sync::Wait;
use structure_call::{carry_out, check_numbers, check_running};

impl PGraph {
    /// Carries an operation of the unit out, answers it with one entry, and keeps the receipt in
    /// the pass. It may wait for the clock to stand still.
    ///
    /// Memory is taken before the first step; a refusal for want of it leaves all as it was but for
    /// spare room.
    pub fn perform<R: Wait, G: Gate>(
        &mut self,
        rt: &R,
        heap: &Heap,
        pass: &mut Pass<G>,
        op: &Op,
    ) -> Result<(), CallRefusal>
        requires stands { IsStanding heap.now self.old.region }
        requires pass { pass.old.ticket.table ≡ heap.now.table }
        requires op { IsOpOf heap.now.opening.layout self.old.region.books.unit op.now }
        ensures gate { IsAskedOften G.cuts G.endless pass.old.gate pass.new.gate (was_cut result) }
        ensures unasked { was_asked result ≡ false → pass.new.gate ≡ pass.old.gate }
        ensures answered { OnOk result (KeepsReceipt pass.old.receipts.items
            pass.new.receipts.items (HasAnsweredCall heap.now self.old.region self.new.region
            pass.old.ticket pass.new.ticket op.now)) }
        ensures kept { OnErr result (pass.new.receipts.items ≡ pass.old.receipts.items) }
        ensures refused { IfErr result (λ why. LeavesCall heap.now self.old.region self.new.region
            pass.old.ticket pass.new.ticket op.now why) }
        ensures checked { was_checked result ≡ true
            → MayBeCalled pass.old.ticket self.old.region op.now }
        ensures stands { IsStanding heap.now self.new.region }
        ensures unit { IsGraphUnit self.new.region self.new.nodes }
    {
        match *op {
            Op::AddV { .. } | Op::DelV { .. } | Op::AddE { .. } | Op::DelE { .. } => {
                self.carry(rt, heap, pass, op)
            }
            _ => {
                let reply = look_up(&self.index, op);
                self.answer(heap, pass, op, &reply)
            }
        }
    }

    // Carries an operation out as it is planned, and answers one at once that changes nothing.
    #[inline(never)]
    fn carry<R: Wait, G: Gate>(
        &mut self,
        rt: &R,
        heap: &Heap,
        pass: &mut Pass<G>,
        op: &Op,
    ) -> Result<(), CallRefusal>
        requires stands { IsStanding heap.now self.old.region }
        requires pass { pass.old.ticket.table ≡ heap.now.table }
        requires op { IsOpOf heap.now.opening.layout self.old.region.books.unit op.now }
        ensures gate { IsAskedOften G.cuts G.endless pass.old.gate pass.new.gate (was_cut result) }
        ensures unasked { was_asked result ≡ false → pass.new.gate ≡ pass.old.gate }
        ensures answered { OnOk result (KeepsReceipt pass.old.receipts.items
            pass.new.receipts.items (HasAnsweredCall heap.now self.old.region self.new.region
            pass.old.ticket pass.new.ticket op.now)) }
        ensures kept { OnErr result (pass.new.receipts.items ≡ pass.old.receipts.items) }
        ensures refused { IfErr result (λ why. LeavesCall heap.now self.old.region self.new.region
            pass.old.ticket pass.new.ticket op.now why) }
        ensures checked { was_checked result ≡ true
            → MayBeCalled pass.old.ticket self.old.region op.now }
        ensures stands { IsStanding heap.now self.new.region }
        ensures unit { IsGraphUnit self.new.region self.new.nodes }
    {
        let GraphPlan { reply, edit } = plan(&self.index, op);
        if let GraphEdit::Keep = edit {
            return self.answer(heap, pass, op, &reply);
        }
        check_running(heap, &mut self.region, pass)?;
        check_edit(heap, &mut self.region, pass, &self.index, &edit)?;
        take_memory(&mut self.index, &mut self.changes, pass, &edit)?;
        match carry_out(rt, heap, &mut self.region, pass, op, &reply, &self.changes) {
            Ok(slot) => {
                follow(&self.region, &mut self.index, &edit, slot);
                Ok(())
            }
            Err(why) => {
                take_back(&mut self.index, &edit);
                Err(why)
            }
        }
    }

    /// The same as `perform`, and answers a copy of the receipt.
    pub fn apply<R: Wait, G: Gate>(
        &mut self,
        rt: &R,
        heap: &Heap,
        pass: &mut Pass<G>,
        op: &Op,
    ) -> Result<Receipt, CallRefusal>
        requires stands { IsStanding heap.now self.old.region }
        requires pass { pass.old.ticket.table ≡ heap.now.table }
        requires op { IsOpOf heap.now.opening.layout self.old.region.books.unit op.now }
        ensures gate { IsAskedOften G.cuts G.endless pass.old.gate pass.new.gate (was_cut result) }
        ensures unasked { was_asked result ≡ false → pass.new.gate ≡ pass.old.gate }
        ensures answered { IfOk result (λ receipt. HasAnsweredCall heap.now self.old.region
            self.new.region pass.old.ticket pass.new.ticket op.now receipt) }
        ensures receipts { IfOk result (λ receipt. pass.new.receipts.items
            ≡ pass.old.receipts.items ++ receipt ∷ []) }
        ensures kept { OnErr result (pass.new.receipts.items ≡ pass.old.receipts.items) }
        ensures refused { IfErr result (λ why. LeavesCall heap.now self.old.region self.new.region
            pass.old.ticket pass.new.ticket op.now why) }
        ensures checked { was_checked result ≡ true
            → MayBeCalled pass.old.ticket self.old.region op.now }
        ensures stands { IsStanding heap.now self.new.region }
        ensures unit { IsGraphUnit self.new.region self.new.nodes }
    {
        self.perform(rt, heap, pass, op)?;
        Ok(last_receipt(&pass.receipts))
    }
}

// Refuses an edit that would be given a number above the last one, change by change, without
// memory.
fn check_edit<G: Gate>(
    heap: &Heap,
    region: &mut Region,
    pass: &mut Pass<G>,
    index: &GraphIndex,
    edit: &GraphEdit,
) -> Result<(), CallRefusal>
    requires region { region.old.seat.table ≡ heap.now.table }
    requires agrees { Agrees region.old }
    requires kind { kind_of region.old.books.layout region.old.books.unit ≡ Some kinds.Graph }
    requires pass { pass.old.ticket.table ≡ heap.now.table }
    requires named { All (NamesLive region.old.seat.known.part.records)
        (changes_of index.now edit.now) }
    ensures gate { pass.new.gate ≡ pass.old.gate }
    ensures receipts { pass.new.receipts ≡ pass.old.receipts }
    ensures agrees { Agrees region.new }
    ensures ok { OnOk result ((first_at_end pass.old.ticket.known.part region.old
        (changes_of index.now edit.now) ≡ None)
        × (region.new ≡ region.old) × (pass.new.ticket ≡ pass.old.ticket)) }
    ensures ends { IfErr result (λ why. EndsCount heap.now region.old region.new
        pass.old.ticket pass.new.ticket (changes_of index.now edit.now) why) }
{
    match *edit {
        GraphEdit::Keep => check_numbers(heap, region, pass, &[], false),
        GraphEdit::Set {
            name,
            attribute,
            was,
        } => {
            let change = setting(name, attribute, was);
            check_numbers(heap, region, pass, &[change], false)
        }
        GraphEdit::Remove { name, node } => {
            check_edges(heap, region, pass, index, name)?;
            check_numbers(heap, region, pass, &[node.removal()], false)
        }
    }
}

// Refuses the removal of the edges that go with a vertex, one by one.
fn check_edges<G: Gate>(
    heap: &Heap,
    region: &mut Region,
    pass: &mut Pass<G>,
    index: &GraphIndex,
    name: Name,
) -> Result<(), CallRefusal>
    requires region { region.old.seat.table ≡ heap.now.table }
    requires agrees { Agrees region.old }
    requires kind { kind_of region.old.books.layout region.old.books.unit ≡ Some kinds.Graph }
    requires pass { pass.old.ticket.table ≡ heap.now.table }
    requires named { AreLiveEdges region.old.seat.known.part.records
        (nodes_with index.now (part_of name)) }
    ensures gate { pass.new.gate ≡ pass.old.gate }
    ensures receipts { pass.new.receipts ≡ pass.old.receipts }
    ensures agrees { Agrees region.new }
    ensures ok { OnOk result (HaveNumbers pass.old.ticket.known.part region.old
        (nodes_with index.now (part_of name))
        × (region.new ≡ region.old) × (pass.new.ticket ≡ pass.old.ticket)) }
    ensures ends { IfErr result (λ why. EndsAtEdge heap.now region.old region.new
        pass.old.ticket pass.new.ticket (nodes_with index.now (part_of name)) why) }
{
    if let Name::Vertex(vertex) = name {
        for (_, node) in index.edges_at(vertex) {
            check_numbers(heap, region, pass, &[node.removal()], false)?;
        }
    }
    Ok(())
}

// Takes the memory of a call: for the changes, the receipt, and the node of what comes in.
fn take_memory<G: Gate>(
    index: &mut GraphIndex,
    changes: &mut Vec<Change>,
    pass: &mut Pass<G>,
    edit: &GraphEdit,
) -> Result<(), CallRefusal>
    requires { Fits index.old edit.now }
    ensures ticket { pass.new.ticket ≡ pass.old.ticket }
    ensures gate { pass.new.gate ≡ pass.old.gate }
    ensures receipts { pass.new.receipts.items ≡ pass.old.receipts.items }
    ensures changes { OnOk result (changes.new.items ≡ changes_of index.old edit.now) }
    ensures index { OnOk result (index.new ≡ prepared index.old edit.now) }
    ensures spare { OnOk result (1 ≤ spare_of pass.new.receipts) }
    ensures memory { IfErr result (λ why. (why ≡ Memory) × (index.new ≡ index.old)) }
{
    if list_changes(changes, index, edit).is_err()
        || pass.reserve().is_err()
        || prepare(index, edit).is_err()
    {
        return Err(CallRefusal::Memory);
    }
    Ok(())
}

// The index follows an edit whose last record stands in this slot.
fn follow(region: &Region, index: &mut GraphIndex, edit: &GraphEdit, slot: Option<Slot>)
    requires agrees { Agrees region.now }
    requires there { HasNode index.old edit.now }
    ensures { index.new ≡ nodes_behind index.old edit.now (record_at region.now slot) }
{
    match *edit {
        GraphEdit::Keep => {}
        GraphEdit::Set {
            name,
            attribute,
            ..
        } => {
            if let Some(held) = written(region, slot) {
                index.set(name, node_by(attribute, held));
            }
        }
        GraphEdit::Remove { name, .. } => index.remove(name),
    }
}

// The record in a slot, if there is a slot and a record.
fn written(region: &Region, slot: Option<Slot>) -> Option<&Held>
    requires { Agrees region.now }
    ensures { option_copied result ≡ record_at region.now slot }
{
    region.find_record(slot?)
}

// Where a record is.
fn node_by(attribute: u64, held: &Held) -> Node
    ensures { result ≡ node_by attribute held.now }
{
    Node {
        attribute,
        identity: held.label.identity,
        slot: held.slot,
    }
}

// What was to come in goes again.
fn take_back(index: &mut GraphIndex, edit: &GraphEdit)
    requires { HasNode index.old edit.now }
    ensures { index.new ≡ restored index.old edit.now }
{
    if let GraphEdit::Set {
        name,
        was: None,
        ..
    } = *edit
    {
        index.remove(name);
    }
}
