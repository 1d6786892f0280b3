// The part `store` of a case: the kinds of the units, the slots of each, and how many callers there
// are.
use case_file::{Case, Unanswered};
use job_text::{layout, number_within, words};
use mont_base::Layout;

/// An empty store.
#[derive(Clone, Copy)]
pub struct StoreLine {
    pub layout: Layout,
    pub callers: u64,
}

/// The store of a case.
pub fn store_of(case: &Case) -> Result<StoreLine, Unanswered> {
    let part = case.needed("store")?;
    match store_in(part.strip_suffix(b"\n").unwrap_or(part)) {
        Some(store) => Ok(store),
        None => Err(Unanswered::Unclear { head: "store" }),
    }
}

fn store_in(line: &[u8]) -> Option<StoreLine> {
    let words = words::<3>(line)?;
    let [kinds, slots, callers] = words.as_slice() else {
        return None;
    };
    Some(StoreLine {
        layout: layout(kinds, slots)?,
        callers: number_within(callers, 1, 8)?,
    })
}
