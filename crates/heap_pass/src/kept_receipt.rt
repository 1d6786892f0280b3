// The receipt of an answered call, taken from where it is kept.
ghost use Rattle.std.specs.Prelude.{◌≡◌, ◌-◌, ◌≤◌, Some, length, slice_get};

use mont_base::Receipt;

/// Copies the last receipt. After an answered call those of its pass end with the call's own.
#[inline]
pub fn last_receipt(receipts: &[Receipt]) -> Receipt
    requires some { 1 ≤ length receipts.now }
    ensures { slice_get receipts.now (length receipts.now - 1) ≡ Some result }
{
    let Some(receipt) = receipts.last() else {
        unreachable!()
    };
    *receipt
}
