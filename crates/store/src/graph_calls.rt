// Calls of graph units.
ghost use Rattle.std.specs.Prelude.{◌≡◌, Some};
ghost use Rattle.mont_base.specs.declared.kinds.UnitKind.TheVariants as kinds;
ghost use Rattle.mont_base.specs.declared.operation.Op.TheVariants as ops;
ghost use Rattle.mont_base.specs.Layout.{kind_of};
ghost use Rattle.store.specs.StoreCalls.{HasCalled};

use crate::store::Store;
use heap_pass::{HeapName, Pass};
use index_kit::Index;
use mont_base::{CallRefusal, Gate, Op, Receipt, Unit};
use std::sync::Wait;

impl<N: HeapName, I: Index> Store<N, I> {
    /// Sets the attribute of a vertex, and answers the one that it had.
    #[inline]
    #[tactic(auto, using(crate::proofs::UnitOps::add_vertex_of))]
    pub fn add_vertex<R: Wait, G: Gate>(
        &self,
        rt: &R,
        pass: &mut Pass<G>,
        unit: Unit,
        vertex: u64,
        attr: u64,
    ) -> Result<Receipt, CallRefusal>
        requires pass { pass.old.ticket.table ≡ N.heap.table }
        requires kind { kind_of N.heap.opening.layout unit ≡ Some kinds.Graph }
        ensures { HasCalled self.now G.cuts G.endless pass.old pass.new
            (ops.AddV unit vertex attr) result }
    {
        let op = Op::AddV { unit, vertex, attr };
        self.call_unit(rt, pass, unit, &op)
    }

    /// Removes a vertex with every edge from or to it, all in one entry, and answers its attribute.
    #[inline]
    #[tactic(auto, using(crate::proofs::UnitOps::del_vertex_of))]
    pub fn del_vertex<R: Wait, G: Gate>(
        &self,
        rt: &R,
        pass: &mut Pass<G>,
        unit: Unit,
        vertex: u64,
    ) -> Result<Receipt, CallRefusal>
        requires pass { pass.old.ticket.table ≡ N.heap.table }
        requires kind { kind_of N.heap.opening.layout unit ≡ Some kinds.Graph }
        ensures { HasCalled self.now G.cuts G.endless pass.old pass.new
            (ops.DelV unit vertex) result }
    {
        let op = Op::DelV { unit, vertex };
        self.call_unit(rt, pass, unit, &op)
    }

    /// Looks a vertex up.
    #[inline]
    #[tactic(auto, using(crate::proofs::UnitOps::vertex_of))]
    pub fn vertex<R: Wait, G: Gate>(
        &self,
        rt: &R,
        pass: &mut Pass<G>,
        unit: Unit,
        vertex: u64,
    ) -> Result<Receipt, CallRefusal>
        requires pass { pass.old.ticket.table ≡ N.heap.table }
        requires kind { kind_of N.heap.opening.layout unit ≡ Some kinds.Graph }
        ensures { HasCalled self.now G.cuts G.endless pass.old pass.new
            (ops.Vertex unit vertex) result }
    {
        let op = Op::Vertex { unit, vertex };
        self.call_unit(rt, pass, unit, &op)
    }

    /// Counts the edges from or to a vertex.
    #[inline]
    #[tactic(auto, using(crate::proofs::UnitOps::degree_of))]
    pub fn degree<R: Wait, G: Gate>(
        &self,
        rt: &R,
        pass: &mut Pass<G>,
        unit: Unit,
        vertex: u64,
    ) -> Result<Receipt, CallRefusal>
        requires pass { pass.old.ticket.table ≡ N.heap.table }
        requires kind { kind_of N.heap.opening.layout unit ≡ Some kinds.Graph }
        ensures { HasCalled self.now G.cuts G.endless pass.old pass.new
            (ops.Degree unit vertex) result }
    {
        let op = Op::Degree { unit, vertex };
        self.call_unit(rt, pass, unit, &op)
    }

    /// Sets the attribute of the edge from one vertex to another, and answers the one that it had.
    #[inline]
    #[tactic(auto, using(crate::proofs::UnitOps::add_edge_of))]
    pub fn add_edge<R: Wait, G: Gate>(
        &self,
        rt: &R,
        pass: &mut Pass<G>,
        unit: Unit,
        from: u64,
        to: u64,
        attr: u64,
    ) -> Result<Receipt, CallRefusal>
        requires pass { pass.old.ticket.table ≡ N.heap.table }
        requires kind { kind_of N.heap.opening.layout unit ≡ Some kinds.Graph }
        ensures { HasCalled self.now G.cuts G.endless pass.old pass.new
            (ops.AddE unit from to attr) result }
    {
        let op = Op::AddE {
            unit,
            from,
            to,
            attr,
        };
        self.call_unit(rt, pass, unit, &op)
    }

    /// Removes an edge, and answers the attribute that it had.
    #[inline]
    #[tactic(auto, using(crate::proofs::UnitOps::del_edge_of))]
    pub fn del_edge<R: Wait, G: Gate>(
        &self,
        rt: &R,
        pass: &mut Pass<G>,
        unit: Unit,
        from: u64,
        to: u64,
    ) -> Result<Receipt, CallRefusal>
        requires pass { pass.old.ticket.table ≡ N.heap.table }
        requires kind { kind_of N.heap.opening.layout unit ≡ Some kinds.Graph }
        ensures { HasCalled self.now G.cuts G.endless pass.old pass.new
            (ops.DelE unit from to) result }
    {
        let op = Op::DelE { unit, from, to };
        self.call_unit(rt, pass, unit, &op)
    }
}
