// Where bytes are split.
ghost use Rattle.std.specs.Prelude.{◌≡◌, ◌==◌, MatchOption, position};
ghost use Rattle.job_text.specs.Parts.{Lacks, IsSplit};

// the place of the first such byte
fn find(bytes: &[u8], byte: u8) -> Option<usize>
    ensures { result ≡ position (λ b. b == byte) bytes.now }
{
    bytes.iter().position(|b| *b == byte)
}

/// The bytes before the first such byte and those after it.
pub fn split_once(bytes: &[u8], byte: u8) -> Option<(&[u8], &[u8])>
    ensures { MatchOption result (Lacks byte bytes.now)
        (λ parts. IsSplit byte bytes.now parts.0.now parts.1.now) }
{
    let at = find(bytes, byte)?;
    Some((&bytes[..at], &bytes[at + 1..]))
}
