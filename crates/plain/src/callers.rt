// What callers have seen of the histories, and the order of their answers.
ghost use Rattle.std.specs.Prelude.{◌≡◌, ◌↔◌, ◌+◌, ◌==◌, ◌<◌, ℕ, if◌then◌else◌, IsTrue, All, AllPairs, count_by, map, slice_set};
ghost use Rattle.mont_base.specs.Seen.{IsEntryAt, FitsHistories, FrontFits, ContinuesView, IsInOrder, IsReceiptOf, IsCallersOrder, names_place};
ghost use Rattle.plain.specs.Callers.{view_of, AreReceipts, AreReceiptsOf, AreInOrder, AreNamedOnce, ArePlacesNamed, TellsHistories, named};

use crate::view::View;
use mont_base::{Entry, Epoch, Receipt, Sequence, Unit};

/// Whether what a caller has seen is there: no front is above its history's length, and no entry
/// before a front is above the newest epoch.
pub fn fits_histories(histories: &[Sequence<Entry>], view: &View) -> bool
    ensures { IsTrue result ↔ FitsHistories histories.now (view_of view.now) }
{
    let fronts = view.fronts.as_slice();
    if fronts.len() != histories.len() {
        return false;
    }
    for (unit, history) in histories.iter().enumerate() {
        if !front_fits(view.newest, fronts[unit], history.as_slice()) {
            return false;
        }
    }
    true
}

// Whether the entries before a front are there, and none of them is above the newest epoch.
fn front_fits(newest: Epoch, front: u64, history: &[Entry]) -> bool
    ensures { IsTrue result ↔ FrontFits newest front history.now }
{
    let front = front as usize;
    front <= history.len() && history[..front].iter().all(|entry| entry.epoch <= newest)
}

/// Whether an answer comes after all that its caller had seen, and the caller has then seen it.
pub fn continues_view(old: &View, new: &View, receipt: &Receipt) -> bool
    ensures { IsTrue result ↔ ContinuesView (view_of old.now) (view_of new.now) receipt.now }
{
    let behind = match old.fronts.get(receipt.unit) {
        Some(front) => *front <= receipt.place,
        None => true,
    };
    behind
        && old.newest <= receipt.entry.epoch
        && are_moved(
            old.fronts.as_slice(),
            new.fronts.as_slice(),
            receipt.unit,
            receipt.place,
        )
        && new.newest == receipt.entry.epoch
}

// Whether the fronts are the old ones, but for that of a unit, which is after a place.
fn are_moved(old: &[u64], new: &[u64], unit: Unit, place: u64) -> bool
    ensures { IsTrue result ↔ (new.now ≡ slice_set old.now unit (place + 1)) }
{
    if new.len() != old.len() {
        return false;
    }
    for at in 0..old.len() {
        if !is_moved(at as u64, unit, place, old[at], new[at]) {
            return false;
        }
    }
    true
}

// Whether a front is after a place where it is that of the unit, and else the old one.
fn is_moved(at: Unit, unit: Unit, place: u64, old: u64, new: u64) -> bool
    ensures { IsTrue result ↔ (new ≡ (if at == unit then place + 1 else old)) }
{
    if at == unit {
        new > 0 && new - 1 == place
    } else {
        new == old
    }
}

/// Whether the receipts of all callers name the entries of the histories, each once, each caller's
/// stand in its order, and what the callers have seen is there.
pub fn is_callers_order(
    histories: &[Sequence<Entry>],
    receipts: &[Sequence<Receipt>],
    views: &[View],
) -> bool
    ensures { IsTrue result ↔ IsCallersOrder histories.now receipts.now (map view_of views.now) }
{
    views.len() == receipts.len()
        && tell_histories(histories, receipts)
        && all_fit(histories, views)
}

// Whether the receipts name the entries of the histories, each once, and stand in order.
fn tell_histories(histories: &[Sequence<Entry>], receipts: &[Sequence<Receipt>]) -> bool
    ensures { IsTrue result ↔ TellsHistories histories.now receipts.now }
{
    are_receipts(histories, receipts)
        && are_in_order(receipts)
        && are_named_once(histories, receipts)
}

// Whether what the callers have seen is there.
fn all_fit(histories: &[Sequence<Entry>], views: &[View]) -> bool
    ensures { IsTrue result ↔ All (λ v. FitsHistories histories.now (view_of v)) views.now }
{
    views.iter().all(|view| fits_histories(histories, view))
}

// Whether each receipt is that of its caller's call.
fn are_receipts(histories: &[Sequence<Entry>], receipts: &[Sequence<Receipt>]) -> bool
    ensures { IsTrue result ↔ AreReceipts histories.now receipts.now }
{
    for (caller, of_caller) in receipts.iter().enumerate() {
        if !are_receipts_of(histories, caller as u64, of_caller.as_slice()) {
            return false;
        }
    }
    true
}

// Whether these are the receipts of a caller's calls.
fn are_receipts_of(histories: &[Sequence<Entry>], caller: u64, receipts: &[Receipt]) -> bool
    ensures { IsTrue result ↔ AreReceiptsOf histories.now caller receipts.now }
{
    for (call, receipt) in receipts.iter().enumerate() {
        if !is_receipt_of(histories, caller, call as u64, receipt) {
            return false;
        }
    }
    true
}

// Whether this is the receipt of a caller's call.
fn is_receipt_of(histories: &[Sequence<Entry>], caller: u64, call: u64, receipt: &Receipt) -> bool
    ensures { IsTrue result ↔ IsReceiptOf histories.now caller call receipt.now }
{
    receipt.entry.caller == caller
        && receipt.entry.call == call
        && is_entry_at(histories, receipt.unit, receipt.place, &receipt.entry)
}

// Whether the histories hold an entry at a place.
fn is_entry_at(histories: &[Sequence<Entry>], unit: Unit, place: u64, entry: &Entry) -> bool
    ensures { IsTrue result ↔ IsEntryAt histories.now unit place entry.now }
{
    let Some(history) = histories.get(unit as usize) else {
        return false;
    };
    match history.get(place) {
        Some(held) => is_same_entry(held, entry),
        None => false,
    }
}

fn is_same_entry(a: &Entry, b: &Entry) -> bool
    ensures { IsTrue result ↔ (a.now ≡ b.now) }
{
    a == b
}

// Whether each caller's receipts stand in its order.
fn are_in_order(receipts: &[Sequence<Receipt>]) -> bool
    ensures { IsTrue result ↔ AreInOrder receipts.now }
{
    for of_caller in receipts {
        if !is_order(of_caller.as_slice()) {
            return false;
        }
    }
    true
}

// Whether the receipts of one caller stand in its order.
fn is_order(receipts: &[Receipt]) -> bool
    ensures { IsTrue result ↔ AllPairs IsInOrder receipts.now }
{
    for (at, receipt) in receipts.iter().enumerate() {
        if !comes_behind(&receipts[..at], receipt) {
            return false;
        }
    }
    true
}

// Whether a caller's receipt may stand after all of these.
fn comes_behind(earlier: &[Receipt], later: &Receipt) -> bool
    ensures { IsTrue result ↔ All (λ r. IsInOrder r later.now) earlier.now }
{
    earlier.iter().all(|receipt| is_in_order(receipt, later))
}

// Whether a caller's receipt may stand before another.
fn is_in_order(earlier: &Receipt, later: &Receipt) -> bool
    ensures { IsTrue result ↔ IsInOrder earlier.now later.now }
{
    earlier.entry.epoch <= later.entry.epoch
        && (earlier.unit != later.unit || earlier.place < later.place)
}

// Whether each entry is named by one receipt.
fn are_named_once(histories: &[Sequence<Entry>], receipts: &[Sequence<Receipt>]) -> bool
    ensures { IsTrue result ↔ AreNamedOnce histories.now receipts.now }
{
    for (unit, history) in histories.iter().enumerate() {
        if !are_places_named(receipts, unit as u64, history.len()) {
            return false;
        }
    }
    true
}

// Whether each of the first places of a unit is named by one receipt.
fn are_places_named(receipts: &[Sequence<Receipt>], unit: Unit, places: u64) -> bool
    ensures { IsTrue result ↔ ArePlacesNamed receipts.now unit places }
{
    for place in 0..places {
        if !is_named_once(receipts, unit, place) {
            return false;
        }
    }
    true
}

// Whether one receipt names a place.
fn is_named_once(receipts: &[Sequence<Receipt>], unit: Unit, place: u64) -> bool
    ensures { IsTrue result ↔ (named unit place receipts.now ≡ 1) }
{
    let mut left = 1;
    for of_caller in receipts {
        let named = named_in(of_caller.as_slice(), unit, place);
        if named > left {
            return false;
        }
        left -= named;
    }
    left == 0
}

// How many of a caller's receipts name a place.
fn named_in(receipts: &[Receipt], unit: Unit, place: u64) -> usize
    ensures { result ≡ count_by (names_place unit place) receipts.now }
{
    receipts
        .iter()
        .filter(|receipt| receipt.unit == unit && receipt.place == place)
        .count()
}
