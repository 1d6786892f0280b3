// An image of word memory.
ghost use Rattle.std.specs.Prelude.{◌≡◌};
ghost use Rattle.mont_base.specs.Image.{clock_of};
ghost use Rattle.mont_image.specs.StoredImage.{IsImage};

use mont_base::{Epoch, Layout, Sequence};

/// The words that a crash leaves. Word 0 is the clock, and the words of the slots follow.
#[derive(Debug, Drop)]
pub struct Image {
    pub layout: Layout,
    pub words: Sequence<u64>,
    /// Whether it is of the first version: its slots have eight words, and keys and values of maps
    /// are numbers.
    pub old: bool,
    pub ghost kept: { IsImage layout words old },
}

impl Image {
    /// The clock, which is word 0.
    pub fn clock(&self) -> Epoch
        ensures { result ≡ clock_of self.now.words }
    {
        self.words.as_slice()[0]
    }
}
