// Lists that are copied, cut short and sifted.
ghost use Rattle.std.specs.Prelude.{◌≡◌, ◌≢◌, ◌++◌, [], take, replicate, length, IfOk, OnOk, OnErr};

use mont_base::Sequence;
use std::alloc::{AllocError, Global};
use std::mem;

/// A copy of a list.
pub fn copied<T: Copy>(alloc: Global, items: &[T]) -> Result<Sequence<T>, AllocError>
    ensures { IfOk result (λ list. list ≡ items.now) }
{
    joined(alloc, items, &[])
}

/// A list with the items of another after it.
pub fn joined<T: Copy>(alloc: Global, items: &[T], others: &[T]) -> Result<Sequence<T>, AllocError>
    ensures { IfOk result (λ list. list ≡ items.now ++ others.now) }
{
    let mut list = Vec::new(alloc);
    list.extend_from_slice(items)?;
    list.extend_from_slice(others)?;
    Ok(Sequence::from_vec(list))
}

/// Takes the items out of a list.
pub fn taken<T: Drop>(alloc: Global, list: &mut Sequence<T>) -> Vec<T>
    ensures items { result.items ≡ list.old }
    ensures rest { list.new ≡ [] }
{
    mem::replace(list, Sequence::new(alloc)).into_vec()
}

/// Drops all items of a list from a place on.
pub fn shorten<T: Drop>(alloc: Global, list: &mut Sequence<T>, len: u64)
    ensures { list.new ≡ take len list.old }
{
    let mut items = taken(alloc, list);
    if len < items.len() as u64 {
        items.truncate(len as usize);
    }
    *list = Sequence::from_vec(items);
}

/// Makes a list the same as another. It takes no memory where they are as long.
pub fn assign(alloc: Global, list: &mut Sequence<u64>, items: &[u64]) -> Result<(), AllocError>
    ensures ok { OnOk result (list.new ≡ items.now) }
    ensures err { OnErr result (list.new ≡ list.old) }
    ensures memory { OnErr result (length list.old ≢ length items.now) }
{
    if list.len() == items.len() as u64 {
        let mut copy = taken(alloc, list);
        copy.copy_from_slice(items);
        *list = Sequence::from_vec(copy);
    } else {
        *list = copied(alloc, items)?;
    }
    Ok(())
}

/// So many zeros.
pub fn zeros(alloc: Global, count: u64) -> Result<Sequence<u64>, AllocError>
    ensures { IfOk result (λ words. words ≡ replicate count 0) }
{
    Ok(Sequence::from_vec(vec![in alloc; 0; count as usize]?))
}
