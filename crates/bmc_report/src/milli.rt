ghost use Rattle.std.specs.Prelude.{◌≡◌, ◌≤◌, ◌<◌, ◌+◌, ◌++◌, OnOk, codes, decimal, length, string_bytes};
ghost use Rattle.bmc_base.specs.Milli.{milli_text, size_text};
ghost use Rattle.bmc_report.specs.Values.{value_text};

use arrayvec::ArrayString;
use bmc_base::{Milli, OutOfMemory};

// The most bytes of a number of thousandths: its sign, 20 digits, the point and three digits.
const LONGEST_NUMBER: usize = 25;

// Returns the digit of a number below ten.
#[tactic(auto, using(std::proofs::lemmas::Fmt::decimal_digit))]
fn digit(value: u64) -> &'static str
    requires { value < 10 }
    ensures text { result.now ≡ decimal value }
    ensures short { length result.now ≤ 1 }
{
    match value {
        0 => "0",
        1 => "1",
        2 => "2",
        3 => "3",
        4 => "4",
        5 => "5",
        6 => "6",
        7 => "7",
        8 => "8",
        _ => "9",
    }
}

// Puts a number of thousandths without its sign behind what is there.
#[tactic(auto, using(std::proofs::Common::append_assoc))]
fn add_size<const ROOM: usize>(text: &mut ArrayString<ROOM>, size: u64)
    requires { length text.old.bytes + 24 ≤ ROOM }
    ensures text { text.new.bytes ≡ text.old.bytes ++ size_text size }
    ensures size { length text.new.bytes ≤ length text.old.bytes + 24 }
{
    text.push_str(itoa::Buffer::new().format(size / 1000));
    text.push_str(".");
    text.push_str(digit(size / 100 % 10));
    text.push_str(digit(size / 10 % 10));
    text.push_str(digit(size % 10));
}

// Puts a number of thousandths behind what is there.
#[tactic(auto, using(std::proofs::Common::append_assoc))]
pub(crate) fn add_milli<const ROOM: usize>(text: &mut ArrayString<ROOM>, value: Milli)
    requires { length text.old.bytes + 25 ≤ ROOM }
    ensures text { text.new.bytes ≡ text.old.bytes ++ milli_text value.0 }
    ensures size { length text.new.bytes ≤ length text.old.bytes + 25 }
{
    if value.0 < 0 {
        text.push_str("-");
    }
    add_size(text, value.0.unsigned_abs());
}

// Appends a number of thousandths.
pub(crate) fn push_milli(out: &mut String, value: Milli) -> Result<(), OutOfMemory>
    ensures { OnOk result (string_bytes out.new ≡ string_bytes out.old ++ milli_text value.0) }
{
    let mut text = ArrayString::<LONGEST_NUMBER>::new();
    add_milli(&mut text, value);
    out.push_str(text.as_str())?;
    Ok(())
}

// Appends a value, or that there is none.
pub(crate) fn push_value(out: &mut String, value: Option<Milli>) -> Result<(), OutOfMemory>
    ensures { OnOk result (string_bytes out.new ≡ string_bytes out.old ++ value_text value) }
{
    match value {
        Some(value) => push_milli(out, value)?,
        None => out.push_str("none")?,
    }
    Ok(())
}
