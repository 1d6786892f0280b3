// The store: what its callers share.
ghost use Rattle.std.specs.Prelude.{◌≡◌};
ghost use Rattle.store.specs.StoreShown.{IsOpenedOn};

use crate::unit_at::UnitAt;
use advance::Advancer;
use heap::Heap;
use heap_pass::{Apart, HeapName, Named};
use index_kit::Index;
use mont_base::Epoch;
use plain::Contents;
use std::marker::Model;
use std::sync::Mutex;

/// The structures of a store, each behind a lock of its own, with the heap and the advancer.
///
/// Callers share it, each with a pass of its own. A call locks the unit of its operation, and no
/// other; the lock of one unit stands in no cache line of another's. Contracts see of which heap it
/// is, the one that N names, and with what its units were opened.
#[derive(Drop)]
pub struct Store<N: HeapName, I: Index = Box<dyn Index + Send>> {
    pub(crate) heap: Heap,
    // It stands apart between the heap, which every call reads, and the first lock.
    pub(crate) base_clock: Apart<Epoch>,
    pub(crate) unit_0: Apart<Mutex<UnitAt<0, N, I>>>,
    pub(crate) unit_1: Apart<Mutex<UnitAt<1, N, I>>>,
    pub(crate) unit_2: Apart<Mutex<UnitAt<2, N, I>>>,
    pub(crate) unit_3: Apart<Mutex<UnitAt<3, N, I>>>,
    pub(crate) unit_4: Apart<Mutex<UnitAt<4, N, I>>>,
    pub(crate) unit_5: Apart<Mutex<UnitAt<5, N, I>>>,
    pub(crate) unit_6: Apart<Mutex<UnitAt<6, N, I>>>,
    pub(crate) unit_7: Apart<Mutex<UnitAt<7, N, I>>>,
    pub(crate) unit_8: Apart<Mutex<UnitAt<8, N, I>>>,
    pub(crate) unit_9: Apart<Mutex<UnitAt<9, N, I>>>,
    pub(crate) unit_10: Apart<Mutex<UnitAt<10, N, I>>>,
    pub(crate) unit_11: Apart<Mutex<UnitAt<11, N, I>>>,
    pub(crate) unit_12: Apart<Mutex<UnitAt<12, N, I>>>,
    pub(crate) unit_13: Apart<Mutex<UnitAt<13, N, I>>>,
    pub(crate) unit_14: Apart<Mutex<UnitAt<14, N, I>>>,
    pub(crate) unit_15: Apart<Mutex<UnitAt<15, N, I>>>,
    pub(crate) advancer: Mutex<Named<N, Advancer>>,
    pub(crate) base: Contents,
}

impl<N: HeapName, I: Index> Model for Store<N, I> {
    ghost use Rattle.plain.specs.States.{states_of};
    ghost use Rattle.store.specs.Store.{IsStoreOf};
    ghost use Rattle.store.specs.StoreShown.{StoreShown, store_code, store_on};

    ghost Value = { StoreShown };

    ghost coded = { store_code };

    ghost view = { λ s. store_on s.heap (states_of s.base) };

    ghost invariant = { λ s. IsStoreOf N.heap s.heap s.base_clock.part s.base };
}

impl<N: HeapName, I: Index> Store<N, I> {
    /// The heap that N names, on which the store was opened.
    pub fn heap(&self) -> &Heap
        ensures opened { IsOpenedOn N.heap self.now }
        ensures heap { result.now ≡ N.heap }
    {
        &self.heap
    }

    /// The advancer, behind its lock.
    pub fn advancer(&self) -> &Mutex<Named<N, Advancer>> {
        &self.advancer
    }
}
