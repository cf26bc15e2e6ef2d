ghost use Rattle.std.specs.Prelude.{◌≡◌, ◌≤◌, None, Some, length, drop, nat_lt};
ghost use Rattle.std.specs.Prelude.{MatchOption, IsUtf8};
ghost use Rattle.std.specs.List.{list_any};
ghost use Rattle.tmpl.specs.Operations.{operator_of, operand, operation_at};
ghost use Rattle.tmpl.specs.Operations.{operations_of, operations_len, divides_by_zero};
ghost use Rattle.tmpl.specs.Operations.{computed, applied_all};
ghost use Rattle.tmpl.specs.Stretches.{FindsOperation};

use crate::digits::read_digits;

// The most digits of the number of an operation.
const OPERAND_DIGITS: usize = 5;

// What an operation does.
#[derive(Clone, Copy)]
pub(crate) enum Operator {
    Add,
    Subtract,
    Multiply,
    Divide,
    Remainder,
}

// An operation, and the number with which it is done.
#[derive(Clone, Copy)]
pub(crate) struct Operation {
    operator: Operator,
    number: u32,
}

impl Operator {
    // Reads a sign.
    fn read(sign: u8) -> Option<Operator>
        ensures { result ≡ operator_of sign }
    {
        match sign {
            b'+' => Some(Operator::Add),
            b'-' => Some(Operator::Subtract),
            b'*' => Some(Operator::Multiply),
            b'/' => Some(Operator::Divide),
            b'%' => Some(Operator::Remainder),
            _ => None,
        }
    }
}

impl Operation {
    // The value behind the operation; none where it leaves 32 bits.
    fn compute(self, value: u32) -> Option<u32>
        ensures { result ≡ computed self.operator value self.number }
    {
        match self.operator {
            Operator::Add => value.checked_add(self.number),
            Operator::Subtract => value.checked_sub(self.number),
            Operator::Multiply => value.checked_mul(self.number),
            Operator::Divide => value.checked_div(self.number),
            Operator::Remainder => value.checked_rem(self.number),
        }
    }

    // Whether it divides by 0.
    fn divides_by_zero(self) -> bool
        ensures { result ≡ divides_by_zero self }
    {
        match self.operator {
            Operator::Divide | Operator::Remainder => self.number == 0,
            Operator::Add | Operator::Subtract | Operator::Multiply => false,
        }
    }
}

// How many digits the number at the front of a text has.
fn operand_len(text: &[u8]) -> usize
    ensures exact { result ≡ length (operand text.now) }
    ensures within { result ≤ length text.now }
{
    text.iter()
        .take(OPERAND_DIGITS)
        .take_while(|byte| byte.is_ascii_digit())
        .count()
}

// The operation at the front of a text, and the text behind it.
#[inline(always)]
fn next_operation(text: &[u8]) -> Option<(Operation, &[u8])>
    ensures { MatchOption result (operation_at text.now ≡ None)
        (λ found. FindsOperation text.now found.0 found.1.now) }
{
    let [b' ', sign, b' ', behind @ ..] = text else {
        return None;
    };
    let operator = Operator::read(*sign)?;
    let (digits, rest) = behind.split_at(operand_len(behind));
    let number = read_digits(digits, OPERAND_DIGITS)? as u32;
    Some((Operation { operator, number }, rest))
}

// Whether an operation stands at the front of a text.
pub(crate) fn has_operation(text: &[u8]) -> bool
    ensures { result ≡ nat_lt 0 (length (operations_of text.now)) }
{
    next_operation(text).is_some()
}

// How many bytes the operations at the front of a text take. A text may be cut behind them.
pub(crate) fn operations_len(text: &[u8]) -> usize
    ensures exact { result ≡ operations_len text.now }
    ensures within { result ≤ length text.now }
    ensures cut { IsUtf8 text.now → IsUtf8 (drop result text.now) }
{
    let mut rest = text;
    while let Some((_, later)) = next_operation(rest) {
        rest = later;
    }
    text.len() - rest.len()
}

// Whether one of the operations at the front of a text divides by 0.
pub(crate) fn any_divides_by_zero(text: &[u8]) -> bool
    ensures { result ≡ list_any divides_by_zero (operations_of text.now) }
{
    let mut rest = text;
    while let Some((operation, later)) = next_operation(rest) {
        if operation.divides_by_zero() {
            return true;
        }
        rest = later;
    }
    false
}

// The value behind the operations at the front of a text, from left to right; none where it leaves
// 32 bits.
pub(crate) fn compute_all(value: u32, text: &[u8]) -> Option<u32>
    ensures { result ≡ applied_all (Some value) (operations_of text.now) }
{
    let mut value = value;
    let mut rest = text;
    while let Some((operation, later)) = next_operation(rest) {
        value = operation.compute(value)?;
        rest = later;
    }
    Some(value)
}
