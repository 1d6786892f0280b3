// The words of a store.
ghost use Rattle.std.specs.Prelude.{◌≡◌, ◌↔◌, IsTrue, length};
ghost use Rattle.mont_base.specs.Image.{IsPermitted};

use crate::layout::Layout;
use crate::sequence::Sequence;

/// Persistent memory word by word: what a load finds, and what outlives a crash. Word 0 is the
/// clock.
#[derive(Debug, Drop)]
pub struct Words {
    pub layout: Layout,
    /// The current values.
    pub cur: Sequence<u64>,
    /// The durable values.
    pub dur: Sequence<u64>,
}

impl Words {
    /// Whether a crash may leave these words: each is current or durable, each by itself.
    pub fn permits(&self, image: &[u64]) -> bool
        requires { length self.now.dur ≡ length self.now.cur }
        ensures { IsTrue result ↔ IsPermitted self.now.cur self.now.dur image.now }
    {
        let current = self.cur.as_slice();
        let durable = self.dur.as_slice();
        if image.len() != current.len() {
            return false;
        }
        for (at, word) in image.iter().enumerate() {
            if *word != current[at] && *word != durable[at] {
                return false;
            }
        }
        true
    }
}
