// Numbers that stand in texts, by their decimal digits.
ghost use Rattle.std.specs.Prelude.{◌≡◌, ◌≢◌, ◌<◌, ◌%◌, ◌^◌, ℕ, MatchOption, decimal};
ghost use Rattle.shard_map.specs.NumberTexts.{number_spelled, IsNumberText};

use mont_base::Text;

// The number whose digits a text is, without a zero in front of others. There is none above
// 2^64 - 1.
pub(crate) fn number_in(text: &Text) -> Option<u64>
    ensures { MatchOption result ((n : ℕ) → n < 2 ^ 64 → text.now ≢ decimal n)
        (λ n. IsNumberText text.now n) }
{
    let number = number_spelled(text);
    if Text::of_number(number) == *text {
        Some(number)
    } else {
        None
    }
}

// What the bytes of a text spell as digits, modulo 2^64.
fn number_spelled(text: &Text) -> u64
    ensures value { result ≡ number_spelled text.now % 2 ^ 64 }
    ensures digits { (n : ℕ) → n < 2 ^ 64 → text.now ≡ decimal n → result ≡ n }
{
    let mut number: u64 = 0;
    for at in 0..text.len() {
        let digit = text.byte(at).saturating_sub(b'0');
        number = number.wrapping_mul(10).wrapping_add(digit as u64);
    }
    number
}
