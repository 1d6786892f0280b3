// A store as the callers of a job and the advancer beside them ask it.
use heap_pass::HeapName;
use index_kit::Index;
use std::marker::Model;
use store::Store;

// A store, lent to a job.
#[derive(Drop)]
pub(crate) struct AskedStore<'a, N: HeapName, I: Index> {
    pub(crate) store: &'a Store<N, I>,
}

impl<'a, N: HeapName, I: Index> Model for AskedStore<'a, N, I> {
    ghost use Rattle.heap.specs.HeapShown.{HeapShown};

    ghost Value = { HeapShown };

    ghost view = { λ s. s.store.now.heap };
}
