// The lines of a text.

/// A text without its last line feed, so that each line feed of it stands between two lines.
pub fn without_last_feed(text: &[u8]) -> &[u8] {
    match text {
        [front @ .., b'\n'] => front,
        _ => text,
    }
}
