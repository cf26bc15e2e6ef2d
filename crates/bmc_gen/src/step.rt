ghost use Rattle.std.specs.Prelude.{◌≡◌, ◌+◌, ◌<◌, ◌^◌, not, slice_set};
ghost use Rattle.bmc_gen.specs.Numbers.{next_number};
ghost use Rattle.bmc_gen.specs.Lines.{turn_by};
ghost use Rattle.bmc_gen.specs.Marks.{mark_at, Follows};

use crate::line::Line;

const FIRST_ADDRESS: u32 = 80;

// The next number of the sequence.
pub(crate) fn next_number(x: u32) -> u32
    requires { x < 2 ^ 31 }
    ensures value { result ≡ next_number x }
    ensures range { result < 2 ^ 31 }
{
    ((u64::from(x) * 1_103_515_245 + 12_345) % (1 << 31)) as u32
}

// A FRU appears at a place, or goes from it, by its mark, which says whether one is there.
fn turn(occupied: &mut [bool; 4], nth: u32) -> Line
    requires { nth < 4 }
    ensures line { result ≡ turn_by (mark_at occupied.old nth) (80 + nth) }
    ensures marks { occupied.new ≡ slice_set occupied.old nth (not (mark_at occupied.old nth)) }
{
    let mark = &mut occupied[nth as usize];
    *mark = !*mark;
    if *mark {
        Line::Plug(FIRST_ADDRESS + nth)
    } else {
        Line::Unplug(FIRST_ADDRESS + nth)
    }
}

// The line that is chosen at this position, from 1. The marks say at which of the four places a FRU
// is, before the line and then behind it.
pub(crate) fn next_line(occupied: &mut [bool; 4], position: u32, choice: u32) -> Line
    requires { choice < 2 ^ 15 }
    ensures { Follows occupied.old occupied.new position choice result }
{
    match choice % 16 {
        0 => turn(occupied, position % 4),
        1 => Line::LoseT,
        2..=8 => Line::ReadT(20_000 + 1000 * (choice % 40)),
        9..=11 => Line::ReadTach(1000 + 100 * (choice % 20)),
        _ => Line::Tick,
    }
}
