// Body words that aren't used, which are 0.
ghost use Rattle.std.specs.Prelude.{◌≡◌};
ghost use Rattle.mont_base.specs.Texts.{are_zero};
ghost use Rattle.mont_base.specs.Bodies.{no_body};

use mont_base::BODY;

/// The body of an anti-payload.
pub fn no_body() -> [u64; BODY]
    ensures { result ≡ no_body }
{
    [0; BODY]
}

// Whether all of these are 0.
pub(crate) fn are_zero(words: &[u64]) -> bool
    ensures { result ≡ are_zero words.now }
{
    words.iter().all(|word| *word == 0)
}
