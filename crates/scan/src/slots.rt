// Slots that are looked at, one after the other.
ghost use Rattle.std.specs.Prelude.{◌≡◌, ◌+◌, ◌*◌, ◌-◌, ◌<◌, ◌≤◌, [], ◌∷◌, ◌++◌, List, ℕ, Some, true, length, Err, IfOk, MatchResult};
ghost use Rattle.std.specs.List.{range_with_len};
ghost use Rattle.mont_base.specs.declared.constants.TheConstants.{LAST};
ghost use Rattle.mont_base.specs.Image.{clock_of, is_in_cut, record_at, words_at};
ghost use Rattle.mont_base.specs.Layout.{Shape, total_of, words_of};
ghost use Rattle.scan.specs.Scanned.{HasFault, IsAnswer, IsReadAt, IsScanOf};

use crate::scanned::{Found, Scan, ScanRefusal};
use mont_base::{FIELDS, Held, Layout, Sequence, Slot, SlotFault};
use payload::read_words;
use std::alloc::{AllocError, Global};

// Nothing, found among no slots.
pub(crate) fn nothing(alloc: Global) -> Found
    ensures { (s : Shape) (image : List ℕ) → IsAnswer s image [] result }
{
    Ok(Scan {
        records: Sequence::new(alloc),
        lost: Sequence::new(alloc),
    })
}

// Looks at the slots from `first` to before `end`, after those of what was found.
pub(crate) fn look_on(found: Found, layout: &Layout, image: &[u64], first: Slot, end: Slot) -> Found
    requires size { length image.now ≡ words_of layout.now }
    requires clock { clock_of image.now ≤ LAST }
    requires rising { first ≤ end }
    requires slots { end ≤ total_of layout.now }
    ensures { (slots : List ℕ) → IsAnswer layout.now image.now slots found
        → IsAnswer layout.now image.now (slots ++ range_with_len first (end - first)) result }
{
    let mut scan = found?;
    for slot in first..end {
        look_at(&mut scan, layout, image, slot)?;
    }
    Ok(scan)
}

// Looks at one slot more.
fn look_at(scan: &mut Scan, layout: &Layout, image: &[u64], slot: Slot) -> Result<(), ScanRefusal>
    requires size { length image.now ≡ words_of layout.now }
    requires clock { clock_of image.now ≤ LAST }
    requires slot { slot < total_of layout.now }
    ensures { (slots : List ℕ) → IsScanOf layout.now image.now slots scan.old
        → MatchResult result
        (λ _. IsScanOf layout.now image.now (slots ++ slot ∷ []) scan.new)
        (λ refusal. IsAnswer layout.now image.now (slots ++ slot ∷ []) (Err refusal)) }
{
    let epoch = image[1 + FIELDS * slot as usize];
    if epoch > image[0].saturating_sub(2) {
        scan.lost.push(slot)?;
    } else if epoch > 0 {
        match record_of(layout, image, slot) {
            Ok(held) => scan.records.push(held)?,
            Err(fault) => return Err(ScanRefusal::Slot { slot, fault }),
        }
    }
    Ok(())
}

// The record of a slot within the cut.
fn record_of(layout: &Layout, image: &[u64], slot: Slot) -> Result<Held, SlotFault>
    requires size { length image.now ≡ words_of layout.now }
    requires clock { clock_of image.now ≤ LAST }
    requires slot { slot < total_of layout.now }
    requires kept { is_in_cut image.now slot ≡ true }
    ensures { MatchResult result
        (λ held. (record_at layout.now image.now slot ≡ Some held)
        × IsReadAt layout.now image.now slot)
        (HasFault layout.now image.now slot) }
{
    match read_words(layout.unit_of_slot(slot), &words_at(layout, image, slot))? {
        Some(read) => {
            let (label, body) = read;
            Ok(Held { slot, label, body })
        }
        None => unreachable!(),
    }
}

// The words of a slot.
fn words_at(layout: &Layout, image: &[u64], slot: Slot) -> [u64; FIELDS]
    requires size { length image.now ≡ words_of layout.now }
    requires slot { slot < total_of layout.now }
    ensures { result ≡ words_at image.now slot }
{
    let first = 1 + FIELDS * slot as usize;
    let mut words = [0; FIELDS];
    words.copy_from_slice(&image[first..first + FIELDS]);
    words
}

// What was found among some slots and among those after them.
pub(crate) fn joined(front: Found, back: Found) -> Found
    ensures { (s : Shape) (image xs ys : List ℕ) → IsAnswer s image xs front
        → IsAnswer s image ys back → IsAnswer s image (xs ++ ys) result }
{
    let front = front?;
    let back = back?;
    Ok(Scan {
        records: both(front.records, back.records)?,
        lost: both(front.lost, back.lost)?,
    })
}

// The items of both, in place where the first has none.
fn both<T: Copy + Drop>(front: Sequence<T>, back: Sequence<T>) -> Result<Sequence<T>, AllocError>
    ensures { IfOk result (λ all. all ≡ front ++ back) }
{
    if front.is_empty() {
        return Ok(back);
    }
    let mut items = front.into_vec();
    items.extend_from_slice(back.as_slice())?;
    Ok(Sequence::from_vec(items))
}
