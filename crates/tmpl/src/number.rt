ghost use Rattle.std.specs.Prelude.{◌≡◌, ◌<◌, ◌^◌, IfSome};
ghost use Rattle.tmpl.specs.Numbers.{hex_number, fixed_number};

use crate::digits::read_digits;

// The most decimal digits of a number.
const DECIMAL_DIGITS: usize = 9;

// The most hexadecimal digits of a number.
const HEX_DIGITS: usize = 4;

// Reads 1 to 4 hexadecimal digits of either case; none where the text is anything else.
fn read_hex(text: &[u8]) -> Option<u32>
    ensures value { result ≡ hex_number text.now }
    ensures below { IfSome result (λ value. value < 16 ^ 4) }
{
    if text.is_empty() || text.len() > HEX_DIGITS {
        return None;
    }
    let mut value: u32 = 0;
    for byte in text {
        let digit = char::from(*byte).to_digit(16)?;
        value = 16 * value + digit;
    }
    Some(value)
}

/// Returns the number that a text is without substitutions: 1 to 9 digits, or `0x` and 1 to 4
/// hexadecimal digits of either case. None where the text is anything else. It takes no memory.
#[tactic(auto, unfolding(crate::specs::Numbers::fixed_number))]
pub fn fixed_number(text: &str) -> Option<u32>
    ensures value { result ≡ fixed_number text.now }
    ensures below { IfSome result (λ number. number < 10 ^ 9) }
{
    match text.as_bytes() {
        [b'0', b'x', behind @ ..] => read_hex(behind),
        all => Some(read_digits(all, DECIMAL_DIGITS)? as u32),
    }
}
