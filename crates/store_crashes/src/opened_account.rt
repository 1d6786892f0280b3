// What each caller of the example does.
ghost use Rattle.std.specs.Prelude.{◌≡◌, ◌<◌, length};
ghost use Rattle.mont_base.specs.Layout.{map_units};
ghost use Rattle.store.specs.StoreCalls.{IsSamePass};

use heap_pass::{HeapName, Pass};
use index_kit::Index;
use mont_base::{Steady, Text};
use std::sync::Wait;
use store::{ShiftRefusal, Store, StoreRefusal};
use store_door::Work;

// Opens an account with 100, and transfers from it to those of the callers beside, where these are
// open.
#[derive(Drop)]
pub(crate) struct Account {
    // Whether all was done, and is durable.
    pub(crate) ended: Result<(), StoreRefusal>,
}

impl Account {
    pub(crate) fn new() -> Account {
        Account { ended: Ok(()) }
    }
}

impl<R: Wait> Work<R, Steady> for Account {
    ghost did = { λ _ _ _ _. Unit {0} };

    fn work<N: HeapName, I: Index>(
        &mut self,
        rt: &R,
        store: &Store<N, I>,
        pass: &mut Pass<Steady>,
    ) {
        self.ended = open_and_transfer(rt, store, pass);
    }
}

fn open_and_transfer<R: Wait, N: HeapName, I: Index>(
    rt: &R,
    store: &Store<N, I>,
    pass: &mut Pass<Steady>,
) -> Result<(), StoreRefusal>
    requires { pass.old.ticket.table ≡ N.heap.table }
    ensures { IsSamePass pass.old pass.new }
{
    if store.heap().layout().maps() == 0 {
        return Ok(());
    }
    let number = pass.ticket.number();
    let (own, next, last) = (
        key_of(number),
        key_of(number.wrapping_add(1)),
        key_of(number.wrapping_add(3)),
    );
    store.put(rt, pass, own, Text::of_number(100))?;
    transfer(rt, store, pass, own, next, 30)?;
    transfer(rt, store, pass, own, last, 20)?;
    store.sync(rt, pass)?;
    Ok(())
}

// The key of the account of the caller of a number, counted around.
fn key_of(number: u64) -> Text {
    Text::of_number(number % 4)
}

// Transfers an amount if the other account is open, and moves the clock on.
fn transfer<R: Wait, N: HeapName, I: Index>(
    rt: &R,
    store: &Store<N, I>,
    pass: &mut Pass<Steady>,
    from: Text,
    to: Text,
    amount: u64,
) -> Result<(), StoreRefusal>
    requires own { pass.old.ticket.table ≡ N.heap.table }
    requires maps { 0 < length (map_units N.heap.opening.layout) }
    ensures { IsSamePass pass.old pass.new }
{
    let _ticked = store.tick(rt, pass);
    match store.shift(rt, pass, from, to, amount) {
        Ok(_) | Err(ShiftRefusal::Missing { .. }) => Ok(()),
        Err(why) => Err(why.into()),
    }
}
