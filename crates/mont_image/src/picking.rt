// Which of the images that a crash permits a mask picks.
ghost use Rattle.std.specs.Prelude.{◌≡◌, ◌≤◌, ◌==◌, ◌%◌, false, length, IfOk};
ghost use Rattle.std.specs.Int.{bit_at};
ghost use Rattle.mont_base.specs.Image.{IsPermitted, clock_of};
ghost use Rattle.mont_base.specs.Layout.{words_of};
ghost use Rattle.mont_image.specs.Picking.{HasClock, IsPick};

use crate::stored_image::Image;
use mont_base::{Sequence, Words};
use std::alloc::{AllocError, Global};

/// The words that are current where the mask has a 1 at their number modulo 64, and durable
/// elsewhere. The lowest bit of the mask has number 0.
pub fn pick(alloc: Global, words: &Words, mask: u64) -> Result<Image, AllocError>
    requires current_size { length words.now.cur ≡ words_of words.now.layout }
    requires durable_size { length words.now.dur ≡ words_of words.now.layout }
    requires current_clock { HasClock words.now.cur }
    requires durable_clock { HasClock words.now.dur }
    ensures layout { IfOk result (λ image. image.layout ≡ words.now.layout) }
    ensures picked { IfOk result (λ image. IsPick mask words.now.cur words.now.dur image.words) }
    ensures permitted { IfOk result
        (λ image. IsPermitted words.now.cur words.now.dur image.words) }
    ensures new { IfOk result (λ image. image.old ≡ false) }
{
    let current = words.cur.as_slice();
    let durable = words.dur.as_slice();
    let mut picked = Vec::with_capacity(alloc, current.len())?;
    for at in 0..current.len() {
        let word = if is_current(mask, at) {
            current[at]
        } else {
            durable[at]
        };
        picked.push(word)?;
    }
    Ok(Image {
        layout: words.layout,
        words: Sequence::from_vec(picked),
        old: false,
    })
}

// Whether the mask picks the current value of a word.
fn is_current(mask: u64, at: usize) -> bool
    ensures { result ≡ (bit_at mask (at % 64) == 1) }
{
    mask >> (at % 64) & 1 == 1
}
