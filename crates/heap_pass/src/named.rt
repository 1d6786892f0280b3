// What stands behind a lock names its heap by its type.
ghost use Rattle.std.specs.Prelude.{◌≡◌};

use heap::{AdvSeat, Ticket, UnitSeat};
use std::marker::{Brand, PhantomData};

/// Names one heap: its table, and with which words it opened.
pub trait HeapName {
    ghost use Rattle.heap.specs.HeapShown.{HeapShown};

    ghost heap: { HeapShown };
}

impl HeapName for Brand {
    ghost use Rattle.heap_pass.specs.NoHeap.{no_heap};

    ghost heap = { no_heap };
}

/// What may stand behind a lock says how it fits a heap: by all that who takes the lock is to know.
pub trait OfHeap {
    ghost use Rattle.heap.specs.HeapShown.{HeapShown};

    ghost fits: { HeapShown → Self → Type 0 };

    /// There is one proof of it at most.
    ghost fits_once: { (heap : HeapShown) (part : Self) → IsProp (fits heap part) };
}

impl OfHeap for UnitSeat {
    ghost use Rattle.heap_pass.specs.OfHeap.{IsOfHeap, IsOfHeap-prop};

    ghost fits = { λ heap s. IsOfHeap heap s.table s.known.clean };

    ghost fits_once = { λ heap s. IsOfHeap-prop heap s.table s.known.clean };
}

impl OfHeap for AdvSeat {
    ghost use Rattle.heap_pass.specs.OfHeap.{IsAdvancerOf, IsAdvancerOf-prop};

    ghost fits = { IsAdvancerOf };

    ghost fits_once = { IsAdvancerOf-prop };
}

impl OfHeap for Ticket {
    ghost use Rattle.heap_pass.specs.OfHeap.{IsOfHeap, IsOfHeap-prop};

    ghost fits = { λ heap s. IsOfHeap heap s.table s.known.clean };

    ghost fits_once = { λ heap s. IsOfHeap-prop heap s.table s.known.clean };
}

/// A part that fits the heap that N names.
#[derive(Drop)]
pub struct Named<N: HeapName, T: OfHeap> {
    pub part: T,
    pub of: PhantomData<N>,
    pub ghost of_heap: { T.fits N.heap part } by { T.fits_once N.heap part },
}

impl<N: HeapName, T: OfHeap> Named<N, T> {
    /// The part under the heap's name.
    pub fn new(part: T) -> Named<N, T>
        requires { T.fits N.heap part }
        ensures { result.part ≡ part }
    {
        Named {
            part,
            of: PhantomData,
        }
    }

    /// Gives the part back.
    pub fn into_part(self) -> T
        ensures part { result ≡ self.part }
        ensures heap { T.fits N.heap result }
    {
        let Named { part, of: _ } = self;
        part
    }
}
