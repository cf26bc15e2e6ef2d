ghost use Rattle.std.specs.Prelude.{◌≡◌, ◌++◌, ◌<◌, ◌≤◌, ◌^◌, OnOk, IfOk, string_bytes};
ghost use Rattle.std.specs.List.{flat_map};
ghost use Rattle.bmc_gen.specs.Lines.{line_text};
ghost use Rattle.bmc_gen.specs.Scripts.{most_lines, lines, script_of};

use crate::document::push_configs;
use crate::line::push_line;
use crate::step::{next_line, next_number};
use bmc_base::{Bytes, OutOfMemory};
use std::alloc::Global;

// Room for what stands before and behind the chosen lines, and for some plugs.
const FRAME_ROOM: usize = 1024;

// Room for a line. A line has 13 to 14 bytes on average.
const LINE_ROOM: usize = 16;

// Appends the first lines that the seed chooses.
#[tactic(auto, using(std::proofs::Common::append_assoc))]
fn push_lines(out: &mut String, seed: u32, count: u32) -> Result<(), OutOfMemory>
    requires seed { seed < 2 ^ 31 }
    requires count { count ≤ most_lines }
    ensures { OnOk result (
        string_bytes out.new
        ≡ string_bytes out.old ++ flat_map line_text (lines seed count)) }
{
    let mut x = seed;
    let mut occupied = [false; 4];
    for i in 0..count {
        x = next_number(x);
        push_line(out, next_line(&mut occupied, i + 1, x >> 16))?;
    }
    Ok(())
}

/// Returns the sample script of a seed, with `n` lines between its configurations and its list of
/// zones. The seed is below 2^31, and `n` is at most 100,000.
#[tactic(auto, using(std::proofs::Common::append_assoc))]
pub fn script(alloc: Global, seed: u32, n: u32) -> Result<Bytes, OutOfMemory>
    requires seed { seed < 2 ^ 31 }
    requires n { n ≤ most_lines }
    ensures { IfOk result (λ bytes. bytes ≡ script_of seed n) }
{
    let mut out = String::with_capacity(alloc, FRAME_ROOM + LINE_ROOM * n as usize)?;
    push_configs(&mut out)?;
    push_lines(&mut out, seed, n)?;
    out.push_str("show zones\n")?;
    Ok(Bytes::from(out.into_bytes()))
}
