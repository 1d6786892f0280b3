// Replies that name what was there.
ghost use Rattle.std.specs.Prelude.{◌≡◌};
ghost use Rattle.mont_base.specs.State.{earlier, earlier_text};
ghost use Rattle.plain.specs.Ranges.{key_found};

use mont_base::{Reply, Text};

// The reply that names the number that was there.
pub(crate) fn earlier(before: Option<u64>) -> Reply
    ensures { result ≡ earlier before }
{
    match before {
        Some(value) => Reply::Was { value },
        None => Reply::Nothing,
    }
}

// The reply that names the text that was there.
pub(crate) fn earlier_text(before: Option<Text>) -> Reply
    ensures { result ≡ earlier_text before }
{
    match before {
        Some(value) => Reply::WasText { value },
        None => Reply::Nothing,
    }
}

// The reply that names the key that was found.
pub(crate) fn key_found(found: Option<Text>) -> Reply
    ensures { result ≡ key_found found }
{
    match found {
        Some(key) => Reply::Key { key },
        None => Reply::Nothing,
    }
}
