// The words of an image as numbers of 64 bits.
ghost use Rattle.std.specs.Prelude.{◌<◌, ◌^◌, All};

// Reads each word. Contracts see words as numbers, and know which of them a word may be once it was
// read.
pub(crate) fn show_words(words: &[u64])
    ensures { All (λ w. w < 2 ^ 64) words.now }
{
    for word in words {
        let _word = *word;
    }
}
