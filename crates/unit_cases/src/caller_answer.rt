// What is told of what callers have seen, and of the order of their answers.
use crate::case_rows::{number_of, rows_in};
use case_file::{Case, Unanswered, numbers_in};
use mont_base::{Entry, Op, Receipt, Reply, Sequence};
use plain::{View, continues_view, fits_histories, is_callers_order};
use std::alloc::{AllocError, Global};

/// Whether what each view tells is there, and whether the callers' order is good. Each entry is
/// `enq UNIT 5 = none`.
///
/// A row of the part `histories` has a unit, and the caller, the call and the epoch of its next
/// entry; one of the part `receipts` the caller that keeps it, a unit, a place, and caller, call
/// and epoch of the entry; one of the part `views` a newest epoch and the fronts. With a part
/// `answer`, a row as of `receipts`, the first view is the one before it, and the others are those
/// that may come of it.
pub fn tell_callers(answer: &mut String, alloc: Global, case: &Case) -> Result<(), Unanswered> {
    let views = views_in(alloc, case)?;
    match case.part("answer") {
        Some(row) => tell_following(answer, &views, &numbers_in(alloc, "answer", row)?),
        None => tell_views(answer, alloc, case, &views),
    }
}

// Whether what each view tells is there, and whether the callers' order is good.
fn tell_views(
    answer: &mut String,
    alloc: Global,
    case: &Case,
    views: &[View],
) -> Result<(), Unanswered> {
    let histories = lists_in::<Entry>(alloc, case, "units", "histories")?;
    tell_fitting(answer, &histories, views)?;
    if case.part("receipts").is_some() {
        let receipts = lists_in::<Receipt>(alloc, case, "callers", "receipts")?;
        let good = if is_callers_order(&histories, &receipts, views) {
            "good order"
        } else {
            "bad order"
        };
        writeln!(answer, "{good}")?;
    }
    Ok(())
}

fn tell_fitting(
    answer: &mut String,
    histories: &[Sequence<Entry>],
    views: &[View],
) -> Result<(), AllocError> {
    for view in views {
        let fits = if fits_histories(histories, view) {
            "there"
        } else {
            "not there"
        };
        writeln!(answer, "{fits}")?;
    }
    Ok(())
}

// Whether each view but the first continues it by the answer of a row.
fn tell_following(answer: &mut String, views: &[View], row: &[u64]) -> Result<(), Unanswered> {
    let Some(receipt) = receipt_of(row) else {
        return Err(Unanswered::Unclear { head: "answer" });
    };
    let Some((old, others)) = views.split_first() else {
        return Err(Unanswered::Unclear { head: "views" });
    };
    for new in others {
        let follows = if continues_view(old, new, &receipt) {
            "follows"
        } else {
            "doesn't follow"
        };
        writeln!(answer, "{follows}")?;
    }
    Ok(())
}

fn entry_of(unit: u64, caller: u64, call: u64, epoch: u64) -> Entry {
    Entry {
        caller,
        call,
        op: Op::Enq { unit, item: 5 },
        reply: Reply::Nothing,
        epoch,
    }
}

fn views_in(alloc: Global, case: &Case) -> Result<Vec<View>, Unanswered> {
    let mut views = Vec::new(alloc);
    for row in &rows_in(alloc, "views", case.needed("views")?)? {
        let Some((newest, fronts)) = row.split_first() else {
            return Err(Unanswered::Unclear { head: "views" });
        };
        let fronts = Sequence::from_vec(fronts.to_vec(alloc)?);
        views.push(View {
            fronts,
            newest: *newest,
        })?;
    }
    Ok(views)
}

// What a row of numbers adds to one of several lists.
trait Listed: Sized {
    // The place of the list, and what is added to it.
    fn of_row(row: &[u64]) -> Option<(u64, Self)>;
}

impl Listed for Entry {
    fn of_row(row: &[u64]) -> Option<(u64, Entry)> {
        match row {
            [unit, caller, call, epoch] => Some((*unit, entry_of(*unit, *caller, *call, *epoch))),
            _ => None,
        }
    }
}

impl Listed for Receipt {
    fn of_row(row: &[u64]) -> Option<(u64, Receipt)> {
        let (by, told) = row.split_first()?;
        Some((*by, receipt_of(told)?))
    }
}

// So many lists as the part `count` says, with what the rows of the part `head` add to them.
fn lists_in<T: Listed + Drop>(
    alloc: Global,
    case: &Case,
    count: &'static str,
    head: &'static str,
) -> Result<Vec<Sequence<T>>, Unanswered> {
    let mut lists = Vec::new(alloc);
    for _ in 0..number_of(alloc, case, count)? {
        lists.push(Sequence::new(alloc))?;
    }
    for row in &rows_in(alloc, head, case.needed(head)?)? {
        let Some((at, item)) = T::of_row(row) else {
            return Err(Unanswered::Unclear { head });
        };
        push_at(&mut lists, at, item, head)?;
    }
    Ok(lists)
}

// The receipt of a unit, a place, and caller, call and epoch of an entry.
fn receipt_of(row: &[u64]) -> Option<Receipt> {
    match row {
        [unit, place, caller, call, epoch] => Some(Receipt {
            unit: *unit,
            place: *place,
            entry: entry_of(*unit, *caller, *call, *epoch),
        }),
        _ => None,
    }
}

// Adds to the list at a place, which a part with this head tells.
fn push_at<T: Drop>(
    lists: &mut Vec<Sequence<T>>,
    at: u64,
    item: T,
    head: &'static str,
) -> Result<(), Unanswered> {
    let Some(list) = lists.get_mut(at as usize) else {
        return Err(Unanswered::Unclear { head });
    };
    list.push(item)?;
    Ok(())
}
