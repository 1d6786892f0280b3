// How many keys stand after a key: so many lines of a map or of a graph may still follow its own.
ghost use Rattle.std.specs.Prelude.{◌≡◌, ◌+◌, ◌-◌, ◌^◌, ◌<◌, min, drop};
ghost use Rattle.mont_base.specs.declared.constants.TheConstants.{TEXT_BYTES};
ghost use Rattle.mont_base.specs.Texts.{IsText};
ghost use Rattle.job_text.specs.Ranks.{texts_of, texts_behind, edges_behind};

use mont_base::{TEXT_BYTES, Text};

/// How many texts stand after one, or the greatest number where they are more.
pub fn texts_behind(text: &Text) -> u64
    requires { IsText text.now }
    ensures { result ≡ min (texts_behind TEXT_BYTES text.now) (2 ^ 64 - 1) }
{
    let mut count = 1u64;
    let mut behind = 0;
    for room in 0..TEXT_BYTES {
        behind = behind_with(text, room, count, behind);
        count = count.saturating_mul(256).saturating_add(1);
    }
    behind
}

// How many stand after what a text has at the place after which so many bytes have room, where
// so many texts have room there, and so many stand after what the text has there.
fn behind_with(text: &Text, room: usize, count: u64, behind: u64) -> u64
    requires text { IsText text.now }
    requires low { room < TEXT_BYTES }
    requires count { count ≡ min (texts_of room) (2 ^ 64 - 1) }
    requires behind { behind
        ≡ min (texts_behind room (drop (TEXT_BYTES - room) text.now)) (2 ^ 64 - 1) }
    ensures { result
        ≡ min (texts_behind (room + 1) (drop (TEXT_BYTES - (room + 1)) text.now)) (2 ^ 64 - 1) }
{
    let at = (TEXT_BYTES - 1 - room) as u64;
    if at < text.len() {
        let above = 255 - u64::from(text.byte(at));
        count.saturating_mul(above).saturating_add(behind)
    } else {
        count.saturating_mul(256)
    }
}

/// How many edges stand after one, or the greatest number where they are more.
pub fn edges_behind(ends: (u64, u64)) -> u64
    ensures { result ≡ min (edges_behind ends) (2 ^ 64 - 1) }
{
    let (from, to) = ends;
    if from < u64::MAX {
        u64::MAX
    } else {
        u64::MAX - to
    }
}
