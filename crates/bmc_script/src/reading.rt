ghost use Rattle.std.specs.Prelude.{◌≡◌, ◌<◌, ◌^◌, None, IfSome, option_map};
ghost use Rattle.bmc_text.specs.Words.{raw_digits};
ghost use Rattle.bmc_script.specs.Readings.{EndsInDigits, reading_parts};

use bmc_text::RAW_DIGITS;

// Splits a text in front of the 1 to 18 digits at its end: what stands before them, and their number. It goes from behind, and
// through each digit once.
#[inline(always)]
fn last_digits(text: &[u8]) -> Option<(&[u8], u64)>
    ensures some { IfSome result (λ parts. EndsInDigits text.now parts.0.now parts.1) }
    ensures below { IfSome result (λ parts. parts.1 < 10 ^ raw_digits) }
    ensures none { result ≡ None → reading_parts text.now ≡ None }
{
    let mut front = text;
    let mut number: u64 = 0;
    let mut unit: u64 = 1;
    while let [rest @ .., digit @ b'0'..=b'9'] = front {
        if text.len() - rest.len() > RAW_DIGITS {
            return None;
        }
        number += unit * u64::from(*digit - b'0');
        unit *= 10;
        front = rest;
    }
    if front.len() == text.len() {
        return None;
    }
    Some((front, number))
}

/// Splits what stands behind `read ` at its last space: the bytes of a name, and the raw reading behind it.
#[inline(always)]
pub(crate) fn split_reading(text: &[u8]) -> Option<(&[u8], i64)>
    ensures { option_map (λ parts. (parts.0.now, parts.1)) result ≡ reading_parts text.now }
{
    let (front, number) = last_digits(text)?;
    let number = number as i64;
    match front {
        [name @ .., b' '] => Some((name, number)),
        [name @ .., b' ', b'-'] => Some((name, -number)),
        _ => None,
    }
}
