// What each caller of the example does.
ghost use Rattle.std.specs.Prelude.{◌≡◌, IfSome};

use heap_pass::{HeapName, Pass};
use index_kit::Index;
use mont_base::{Epoch, Steady, Text};
use std::sync::Wait;
use store::Store;
use store_door::Work;

// Puts 10 at the caller's number, and waits until that is durable.
#[derive(Drop)]
pub(crate) struct PutsPair {
    // The durable clock that shows it.
    pub(crate) durable: Option<Epoch>,
}

impl<R: Wait> Work<R, Steady> for PutsPair {
    // What it calls durable is: all that the caller has seen.
    ghost did = { λ old new heap ticket. IfSome new.durable
        (λ clock. ticket.known.part.synced ≡ ticket.known.part.fronts) };

    fn work<N: HeapName, I: Index>(
        &mut self,
        rt: &R,
        store: &Store<N, I>,
        pass: &mut Pass<Steady>,
    ) {
        self.durable = None;
        if store.heap().layout().maps() == 0 {
            return;
        }
        let key = Text::of_number(pass.ticket.number());
        if store.put(rt, pass, key, Text::of_number(10)).is_ok() {
            self.durable = store.sync(rt, pass).ok();
        }
    }
}
