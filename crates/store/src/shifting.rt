// A shift: an amount goes from the number under one key of the map units to that under another, in
// two units under both locks.
ghost use Rattle.std.specs.Prelude.{◌≡◌, ◌<◌, length, Some};
ghost use Rattle.mont_base.specs.Layout.{map_units, unit_of_key};
ghost use Rattle.store.specs.Shifting.{AreOfTwoUnits, HasTriedShift};
ghost use Rattle.store.specs.StoreShown.{OfAnyBase};
ghost use Rattle.store.specs.UnitAt.{StandsAt, region_of};

use crate::store::Store;
use crate::unit_structure::Structure;
use heap::Heap;
use heap_pass::{HeapName, Pass};
use index_kit::Index;
use mont_base::{Gate, Receipt, Text, Unit};
use shard_map::{ShiftRefusal, shift};
use std::sync::Wait;

// An amount that is to go from one key to another. The two are kept by two units, and `up` says
// whether that of `from` is the lower one.
#[derive(Clone, Copy)]
pub(crate) struct Shift {
    pub(crate) up: bool,
    pub(crate) from: Text,
    pub(crate) to: Text,
    pub(crate) amount: u64,
}

impl<N: HeapName, I: Index> Store<N, I> {
    /// Takes an amount from the number under one key and adds it to the number under another, which
    /// another unit keeps: two entries of one epoch, or none. Answers the receipts of `from` and of
    /// `to`; the pass keeps both, that of the lower unit first.
    ///
    /// It holds the locks of both units, and takes them by rising number. It may wait for the clock
    /// to stand still.
    pub fn shift<R: Wait, G: Gate>(
        &self,
        rt: &R,
        pass: &mut Pass<G>,
        from: Text,
        to: Text,
        amount: u64,
    ) -> Result<(Receipt, Receipt), ShiftRefusal>
        requires pass { pass.old.ticket.table ≡ N.heap.table }
        requires maps { 0 < length (map_units N.heap.opening.layout) }
        ensures { HasTriedShift self.now G.cuts G.endless pass.old pass.new from to amount result }
    {
        let _heap = self.heap();
        self.shift_keys(rt, pass, from, to, amount)
    }

    // The same, told by any base.
    fn shift_keys<R: Wait, G: Gate>(
        &self,
        rt: &R,
        pass: &mut Pass<G>,
        from: Text,
        to: Text,
        amount: u64,
    ) -> Result<(Receipt, Receipt), ShiftRefusal>
        requires pass { pass.old.ticket.table ≡ N.heap.table }
        requires maps { 0 < length (map_units N.heap.opening.layout) }
        ensures { OfAnyBase N.heap (λ store. HasTriedShift store G.cuts G.endless pass.old
            pass.new from to amount result) }
    {
        let (out, into) = (self.keeper_of(&from), self.keeper_of(&to));
        if out == into {
            return Err(ShiftRefusal::SameUnit { unit: out });
        }
        let up = out < into;
        let (low, high) = if up { (out, into) } else { (into, out) };
        let shift = Shift {
            up,
            from,
            to,
            amount,
        };
        self.with_low(rt, pass, low, high, &shift)
    }

    // The map unit that keeps a key.
    fn keeper_of(&self, key: &Text) -> Unit
        requires { 0 < length (map_units N.heap.opening.layout) }
        ensures { unit_of_key N.heap.opening.layout key.now ≡ Some result }
    {
        self.heap.layout().unit_of_key(key)
    }
}

// Shifts between the structures of two units, which are maps.
pub(crate) fn shift_between<R: Wait, G: Gate, I: Index>(
    rt: &R,
    heap: &Heap,
    low: &mut Structure<I>,
    high: &mut Structure<I>,
    pass: &mut Pass<G>,
    by: &Shift,
) -> Result<(Receipt, Receipt), ShiftRefusal>
    requires low { StandsAt heap.now (region_of low.old).books.unit low.old }
    requires high { StandsAt heap.now (region_of high.old).books.unit high.old }
    requires pass { pass.old.ticket.table ≡ heap.now.table }
    requires units { AreOfTwoUnits heap.now.opening.layout by.now.from by.now.to
        by.now.up (region_of low.old).books.unit (region_of high.old).books.unit }
    ensures low { StandsAt heap.now (region_of low.old).books.unit low.new }
    ensures high { StandsAt heap.now (region_of high.old).books.unit high.new }
    ensures tried { OfAnyBase heap.now (λ store. HasTriedShift store G.cuts G.endless pass.old
        pass.new by.now.from by.now.to by.now.amount result) }
{
    let Structure::Map { unit: low } = low else {
        unreachable!()
    };
    let Structure::Map { unit: high } = high else {
        unreachable!()
    };
    let Shift {
        up,
        from,
        to,
        amount,
    } = by;
    shift(rt, heap, low, high, pass, *up, from, to, *amount)
}
