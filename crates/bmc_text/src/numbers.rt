ghost use Rattle.std.specs.Prelude.{◌≡◌, ◌<◌, ◌≤◌, ◌^◌, ◌==◌, ◌*◌, ◌+◌, drop, pos, neg_ℤ, if◌then◌else◌, option_map, position, length, IfSome, Some, None};
ghost use Rattle.std.specs.Prelude.{codes};
ghost use Rattle.std.specs.Str.Parse.{starts_with_minus};
ghost use Rattle.bmc_text.specs.Words.{digits, number, raw, units, decimal_units, split_at, raw_digits, whole_digits};

/// The most digits of a number in a line.
const NUMBER_DIGITS: usize = 9;

/// The most digits of a raw reading.
pub const RAW_DIGITS: usize = 18;

/// The most digits of a decimal in front of its point.
const WHOLE_DIGITS: usize = 10;

// The number of 1 to `longest` decimal digits, or none where the text is anything else.
#[tactic(auto, unfolding(crate::specs::Words::digits))]
fn read_digits(text: &[u8], longest: usize) -> Option<u64>
    requires { longest ≤ raw_digits }
    ensures value { result ≡ digits longest text.now }
    ensures below { IfSome result (λ value. value < 10 ^ longest) }
    ensures within { IfSome result (λ _. length text.now ≤ longest) }
{
    if text.is_empty() || text.len() > longest {
        return None;
    }
    let mut value: u64 = 0;
    for digit in text {
        if !digit.is_ascii_digit() {
            return None;
        }
        value = 10 * value + u64::from(*digit - b'0');
    }
    Some(value)
}

/// The number of 1 to 9 decimal digits, leading zeros among them, or none where the text is anything else.
#[tactic(auto, unfolding(crate::specs::Words::number))]
pub fn read_number(text: &[u8]) -> Option<u32>
    ensures { result ≡ number text.now }
{
    let value = read_digits(text, NUMBER_DIGITS)?;
    Some(value as u32)
}

// Whether a text begins with `-`, and what stands behind it.
fn split_sign(text: &[u8]) -> (bool, &[u8])
    ensures sign { result.0 ≡ starts_with_minus text.now }
    ensures rest { result.1.now ≡ (if result.0 then drop 1 text.now else text.now) }
{
    match text {
        [b'-', rest @ ..] => (true, rest),
        _ => (false, text),
    }
}

// The number with this sign.
fn with_sign(negative: bool, value: u64) -> i64
    requires { value < 2 ^ 63 }
    ensures { result ≡ (if negative then neg_ℤ (pos value) else pos value) }
{
    let value = value as i64;
    if negative { -value } else { value }
}

/// A raw reading: an optional `-` and 1 to 18 decimal digits, leading zeros among them, or none where the
/// text is anything else.
#[inline(always)]
pub fn read_raw(text: &[u8]) -> Option<i64>
    ensures { result ≡ raw text.now }
{
    let (negative, digits) = split_sign(text);
    let value = read_digits(digits, RAW_DIGITS)?;
    Some(with_sign(negative, value))
}

// The place of the first point.
fn point(text: &[u8]) -> Option<usize>
    ensures place { result ≡ position (λ byte. byte == 46) text.now }
    ensures within { IfSome result (λ at. at < length text.now) }
{
    text.iter().position(|byte| *byte == b'.')
}

// The digits in front of the point and those behind it, or none where there is no point.
fn split_point(text: &[u8]) -> Option<(&[u8], &[u8])>
    ensures { option_map (λ parts. (parts.0.now, parts.1.now)) result ≡ split_at 46 text.now }
{
    match point(text) {
        Some(at) => Some((&text[..at], &text[at + 1..])),
        None => None,
    }
}

// A number in units of 10 to the power `-places`.
fn in_units(number: u64, places: u32) -> u64
    requires number { number < 10 ^ whole_digits }
    requires places { places ≤ 6 }
    ensures value { result ≡ number * 10 ^ places }
    ensures below { result < 2 ^ 62 }
{
    number * 10u64.pow(places)
}

// A decimal without a sign, in units of 10 to the power `-places`.
fn read_units(text: &[u8], places: u32) -> Option<u64>
    requires { places ≤ 6 }
    ensures value { result ≡ units places text.now (split_at 46 text.now) }
    ensures below { IfSome result (λ value. value < 2 ^ 63) }
{
    match split_point(text) {
        None => {
            let whole = read_digits(text, WHOLE_DIGITS)?;
            Some(in_units(whole, places))
        }
        Some((front, behind)) => {
            let whole = read_digits(front, WHOLE_DIGITS)?;
            let fraction = read_digits(behind, places as usize)?;
            let rest = places - behind.len() as u32;
            Some(in_units(whole, places) + in_units(fraction, rest))
        }
    }
}

/// The value of a decimal in units of 10 to the power `-places`, of which there are 1 to 6: an optional `-`,
/// 1 to 10 digits, and optionally a point and 1 to `places` digits. None where the text is anything else.
pub fn decimal(text: &str, places: u32) -> Option<i64>
    requires { (1 ≤ places) × (places ≤ 6) }
    ensures { result ≡ decimal_units places text.now }
{
    let (negative, digits) = split_sign(text.as_bytes());
    let units = read_units(digits, places)?;
    Some(with_sign(negative, units))
}

/// What some texts are read as, computed from the definitions: numbers, raw readings and decimals in
/// thousandths, and texts that are none.
pub fn number_examples()
    ensures leading_zeros { number (codes "000000080") ≡ Some 80 }
    ensures ten_digits { number (codes "1234567890") ≡ None }
    ensures raw_reading { raw (codes "-41000") ≡ Some (neg_ℤ (pos 41000)) }
    ensures raw_longest { raw (codes "999999999999999999") ≡ Some (pos 999999999999999999) }
    ensures raw_too_long { raw (codes "1000000000000000000") ≡ None }
    ensures raw_none { raw (codes "-") ≡ None }
    ensures whole { decimal_units 3 (codes "30") ≡ Some (pos 30000) }
    ensures tenths { decimal_units 3 (codes "-0.3") ≡ Some (neg_ℤ (pos 300)) }
    ensures thousandths { decimal_units 3 (codes "40.001") ≡ Some (pos 40001) }
    ensures too_fine { decimal_units 3 (codes "40.0015") ≡ None }
    ensures no_fraction { decimal_units 3 (codes "40.") ≡ None }
    ensures no_whole { decimal_units 3 (codes ".5") ≡ None }
{}
