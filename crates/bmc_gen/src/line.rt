ghost use Rattle.std.specs.Prelude.{◌≡◌, ◌++◌, OnOk, string_bytes};
ghost use Rattle.bmc_gen.specs.Lines.{line_text};

use crate::numbered::push_numbered;
use bmc_base::OutOfMemory;

// What follows the address of a plug: the record of a board with the product name RSR1.
const PLUGGED: &str = " 01000001000000FE010300000000C341434DC452535231C25331C0C0C10000F5\n";

/// A line between the configurations and the list of zones.
#[derive(Clone, Copy)]
pub(crate) enum Line {
    /// A FRU appears at this address of bus 1.
    Plug(u32),
    /// The FRU at this address of bus 1 is taken away.
    Unplug(u32),
    /// A reading of the sensor `T` is lost.
    LoseT,
    /// A good reading of the sensor `T`, as a raw number.
    ReadT(u32),
    /// A good reading of the sensor `Tach`, as a raw number.
    ReadTach(u32),
    /// One tick.
    Tick,
}

// Appends a line and its newline.
#[tactic(auto, unfolding(crate::specs::Lines::line_text))]
pub(crate) fn push_line(out: &mut String, line: Line) -> Result<(), OutOfMemory>
    ensures { OnOk result (string_bytes out.new ≡ string_bytes out.old ++ line_text line) }
{
    match line {
        Line::Plug(address) => push_numbered(out, "plug 1 ", u64::from(address), PLUGGED)?,
        Line::Unplug(address) => push_numbered(out, "unplug 1 ", u64::from(address), "\n")?,
        Line::LoseT => out.push_str("lose T\n")?,
        Line::ReadT(raw) => push_numbered(out, "read T ", u64::from(raw), "\n")?,
        Line::ReadTach(raw) => push_numbered(out, "read Tach ", u64::from(raw), "\n")?,
        Line::Tick => out.push_str("tick 1\n")?,
    }
    Ok(())
}
