// Values of maps read as numbers.
ghost use Rattle.std.specs.Prelude.{◌≡◌, ◌<◌, ◌%◌, ◌^◌, ℕ, decimal};
ghost use Rattle.big_job.specs.Digits.{number_spelled};

use mont_base::Text;

/// The number modulo 2^64 that the digits of a text spell.
pub fn number_spelled(text: &Text) -> u64
    ensures value { result ≡ number_spelled text.now % 2 ^ 64 }
    ensures digits { (n : ℕ) → n < 2 ^ 64 → text.now ≡ decimal n → result ≡ n }
{
    let mut number: u64 = 0;
    for at in 0..text.len() {
        let digit = text.byte(at).saturating_sub(b'0');
        number = number.wrapping_mul(10).wrapping_add(digit as u64);
    }
    number
}
