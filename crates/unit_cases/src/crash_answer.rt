// Whether a crash may leave words.
ghost use Rattle.std.specs.Prelude.{◌≡◌, length};

use crate::case_rows::{layout_of, numbers_of, rows_in};
use case_file::{Case, Unanswered};
use mont_base::{Sequence, Words};
use std::alloc::{AllocError, Global};

/// For each row of the part `images` whether a crash may leave these words, where the current and
/// the durable ones are those of the parts `current` and `durable`.
pub fn tell_crash(answer: &mut String, alloc: Global, case: &Case) -> Result<(), Unanswered> {
    let layout = match layout_of(alloc, case) {
        Ok(layout) => layout,
        Err(why) => return Err(why),
    };
    let images = rows_in(alloc, "images", case.needed("images")?)?;
    let cur = Sequence::from_vec(numbers_of(alloc, case, "current")?);
    let dur = Sequence::from_vec(numbers_of(alloc, case, "durable")?);
    if cur.len() != dur.len() {
        return Err(Unanswered::Unclear { head: "durable" });
    }
    Ok(tell_permitted(answer, &Words { layout, cur, dur }, &images)?)
}

fn tell_permitted(answer: &mut String, words: &Words, images: &[Vec<u64>]) -> Result<(), AllocError>
    requires { length words.now.dur ≡ length words.now.cur }
{
    for image in images {
        let may = if words.permits(image) {
            "may"
        } else {
            "may not"
        };
        writeln!(answer, "{may}")?;
    }
    Ok(())
}
