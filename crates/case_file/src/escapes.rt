// What a line of a file stands for: itself and a line feed, but for what begins with a backslash.
//
// `\\` is one backslash, `\n` a line feed and `\x` with two digits 0 to 9, a to f a byte.
// `\{N TEXT}` is TEXT N times. A backslash at the end takes the line feed away.
ghost use Rattle.std.specs.Prelude.{◌<◌, length, IfOk};

use crate::case_numbers::number_of;
use crate::case_refusal::CaseFault;

// How often a text is repeated at most.
const MOST_TIMES: u64 = 1_000_000;

/// Adds what a line stands for.
pub fn push_line(text: &mut Vec<u8>, line: &[u8]) -> Result<(), CaseFault> {
    let mut rest = line;
    while !rest.is_empty() {
        match rest {
            [b'\\'] => return Ok(()),
            [b'\\', b'{', after @ ..] => rest = push_times(text, after)?,
            _ => rest = push_byte(text, rest)?,
        }
    }
    text.push(b'\n')?;
    Ok(())
}

// Adds the byte that the first ones stand for. What follows them is left.
fn push_byte<'a>(text: &mut Vec<u8>, bytes: &'a [u8]) -> Result<&'a [u8], CaseFault>
    ensures { IfOk result (λ rest. length rest.now < length bytes.now) }
{
    match bytes {
        [b'\\', b'\\', after @ ..] => {
            text.push(b'\\')?;
            Ok(after)
        }
        [b'\\', b'n', after @ ..] => {
            text.push(b'\n')?;
            Ok(after)
        }
        [b'\\', b'x', high, low, after @ ..] => {
            text.push(16 * digit(*high)? + digit(*low)?)?;
            Ok(after)
        }
        [byte, after @ ..] if *byte != b'\\' => {
            text.push(*byte)?;
            Ok(after)
        }
        _ => Err(CaseFault::Escape),
    }
}

// The number below 16 of which this is the digit.
fn digit(byte: u8) -> Result<u8, CaseFault>
    ensures { IfOk result (λ n. n < 16) }
{
    match byte {
        b'0'..=b'9' => Ok(byte - b'0'),
        b'a'..=b'f' => Ok(byte - b'a' + 10),
        _ => Err(CaseFault::Escape),
    }
}

// Adds the text up to the next brace as often as the number before it says.
fn push_times<'a>(text: &mut Vec<u8>, bytes: &'a [u8]) -> Result<&'a [u8], CaseFault>
    ensures { IfOk result (λ rest. length rest.now < length bytes.now) }
{
    let (inner, after) = split_once(bytes, b'}')?;
    let (number, repeated) = split_once(inner, b' ')?;
    let times = number_of(number).filter(|n| *n <= MOST_TIMES);
    let Some(times) = times else {
        return Err(CaseFault::Escape);
    };
    for _ in 0..times {
        let mut rest = repeated;
        while !rest.is_empty() {
            rest = push_byte(text, rest)?;
        }
    }
    Ok(after)
}

// The bytes before the first such byte and those after it.
fn split_once(bytes: &[u8], byte: u8) -> Result<(&[u8], &[u8]), CaseFault>
    ensures { IfOk result (λ p. length p.1.now < length bytes.now) }
{
    for (at, one) in bytes.iter().enumerate() {
        if *one == byte {
            return Ok((&bytes[..at], &bytes[at + 1..]));
        }
    }
    Err(CaseFault::Escape)
}
