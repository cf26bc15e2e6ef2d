ghost use Rattle.std.specs.Prelude.{◌≡◌, ◌≤◌, ◌+◌, ◌++◌, OnOk, length, string_bytes};
ghost use Rattle.bmc_report.specs.Boards.{at_text, board_text};

use crate::line::Line;
use crate::place::add_place;
use crate::quoted::add_quoted;
use bmc_base::{Name, OutOfMemory, Place};

// Puts where a board is behind its index, if it was found by a FRU at a place.
#[tactic(auto, using(std::proofs::Common::append_assoc))]
fn add_at(line: &mut Line, place: Option<Place>)
    requires { length line.old.bytes + 11 ≤ 320 }
    ensures text { line.new.bytes ≡ line.old.bytes ++ at_text place }
    ensures size { length line.new.bytes ≤ length line.old.bytes + 11 }
{
    if let Some(place) = place {
        line.push_str(" at ");
        add_place(line, place);
    }
}

// Puts which board it is behind a line: the name of its configuration, its index, and its place.
#[tactic(auto, using(std::proofs::Common::append_assoc))]
pub(crate) fn add_board(line: &mut Line, name: &Name, index: u32, place: Option<Place>)
    requires { length line.old.bytes + 280 ≤ 320 }
    ensures text { line.new.bytes ≡ line.old.bytes ++ board_text name.now index place }
    ensures size { length line.new.bytes ≤ length line.old.bytes + 280 }
{
    add_quoted(line, name);
    line.push_str(" ");
    line.push_str(itoa::Buffer::new().format(index));
    add_at(line, place);
}

// Appends which board it is.
pub(crate) fn push_board(
    out: &mut String,
    name: &Name,
    index: u32,
    place: Option<Place>,
) -> Result<(), OutOfMemory>
    ensures { OnOk result (string_bytes out.new ≡ string_bytes out.old ++ board_text name.now index place) }
{
    let mut line = Line::new();
    add_board(&mut line, name, index, place);
    out.push_str(line.as_str())?;
    Ok(())
}
