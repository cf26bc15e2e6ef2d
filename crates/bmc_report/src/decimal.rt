ghost use Rattle.std.specs.Prelude.{◌≡◌, ◌++◌, OnOk, decimal, string_bytes};

use bmc_base::OutOfMemory;

// Appends the decimal digits of a number. `write!` would move the text there and back.
#[inline]
pub(crate) fn push_decimal(out: &mut String, number: u64) -> Result<(), OutOfMemory>
    ensures { OnOk result (string_bytes out.new ≡ string_bytes out.old ++ decimal number) }
{
    out.push_str(itoa::Buffer::new().format(number))?;
    Ok(())
}
