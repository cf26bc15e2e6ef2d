ghost use Rattle.std.specs.Prelude.{◌≡◌, ◌++◌, OnOk, decimal, string_bytes};

use bmc_base::OutOfMemory;

// Appends a number in decimal digits, between two texts. It copies nothing else, as `write!` would.
#[tactic(auto, using(std::proofs::Common::append_assoc))]
pub(crate) fn push_numbered(
    out: &mut String,
    before: &str,
    number: u64,
    behind: &str,
) -> Result<(), OutOfMemory>
    ensures { OnOk result (
        string_bytes out.new
        ≡ string_bytes out.old ++ before.now ++ decimal number ++ behind.now) }
{
    out.push_str(before)?;
    out.push_str(itoa::Buffer::new().format(number))?;
    out.push_str(behind)?;
    Ok(())
}
