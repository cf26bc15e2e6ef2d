ghost use Rattle.std.specs.Prelude.{◌≡◌, ◌≤◌, ◌<◌, ◌^◌, length, IfSome};
ghost use Rattle.tmpl.specs.Operations.{digits};

// Reads 1 to `most` decimal digits, leading zeros among them; none where the text is anything
// else.
#[tactic(auto, unfolding(crate::specs::Operations::digits))]
pub(crate) fn read_digits(text: &[u8], most: usize) -> Option<u64>
    requires { most ≤ 10 }
    ensures value { result ≡ digits most text.now }
    ensures below { IfSome result (λ value. value < 10 ^ most) }
{
    if text.is_empty() || text.len() > most {
        return None;
    }
    let mut value: u64 = 0;
    for digit in text {
        if !digit.is_ascii_digit() {
            return None;
        }
        value = 10 * value + u64::from(*digit - b'0');
    }
    Some(value)
}
