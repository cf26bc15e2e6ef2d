ghost use Rattle.std.specs.Prelude.{◌≡◌, ◌++◌, OnOk, codes, string_bytes};
ghost use Rattle.bmc_report.specs.BoardRows.{board_row, index_row, number_text, live_text, item_row};

use crate::board::push_board;
use crate::decimal::push_decimal;
use crate::quoted::push_quoted;
use bmc_base::{Name, OutOfMemory, Place};

/// Appends the row of a board in the inventory: the name of its configuration, its index, and its place if it
/// was found by a FRU at one.
#[tactic(auto, using(std::proofs::Common::append_assoc))]
pub fn push_board_row(
    out: &mut String,
    name: &Name,
    index: u32,
    place: Option<Place>,
) -> Result<(), OutOfMemory>
    ensures { OnOk result (string_bytes out.new ≡ string_bytes out.old ++ board_row name.now index place) }
{
    out.push_str("board ")?;
    push_board(out, name, index, place)?;
    out.push('\n')?;
    Ok(())
}

/// Appends the row of an index that a board has for good: the name of its configuration, the index, and its
/// place if it was found by a FRU at one.
#[tactic(auto, using(std::proofs::Common::append_assoc))]
pub fn push_index_row(
    out: &mut String,
    name: &Name,
    index: u32,
    place: Option<Place>,
) -> Result<(), OutOfMemory>
    ensures { OnOk result (string_bytes out.new ≡ string_bytes out.old ++ index_row name.now index place) }
{
    out.push_str("index ")?;
    push_board(out, name, index, place)?;
    out.push('\n')?;
    Ok(())
}

/// What the row of an item says.
#[derive(Drop)]
pub struct ItemRow<'a> {
    /// Its type, as its configuration spells it.
    pub kind: &'a Name,
    /// Its name.
    pub name: &'a Name,
    /// The bus that it asks for, if it does.
    pub bus: Option<u8>,
    /// The address that it asks for, if it does.
    pub address: Option<u8>,
    /// Whether it is live.
    pub live: bool,
}

// Appends a number behind its word, if there is one.
#[tactic(auto, using(std::proofs::Common::append_assoc))]
fn push_number(out: &mut String, word: &str, number: Option<u8>) -> Result<(), OutOfMemory>
    ensures { OnOk result (string_bytes out.new ≡ string_bytes out.old ++ number_text word.now number) }
{
    if let Some(number) = number {
        out.push(' ')?;
        out.push_str(word)?;
        out.push(' ')?;
        push_decimal(out, u64::from(number))?;
    }
    Ok(())
}

// The word of a live item.
fn live_word(live: bool) -> &'static str
    ensures { result.now ≡ live_text live }
{
    if live { " live" } else { "" }
}

/// Appends the row of an item in the inventory, under the row of its board.
#[tactic(auto, using(std::proofs::Common::append_assoc), unfolding(crate::specs::BoardRows::item_row))]
pub fn push_item_row(out: &mut String, row: &ItemRow<'_>) -> Result<(), OutOfMemory>
    ensures { OnOk result (string_bytes out.new ≡ string_bytes out.old
        ++ item_row row.now.kind.now row.now.name.now row.now.bus row.now.address row.now.live) }
{
    out.push_str("  ")?;
    push_quoted(out, row.kind.as_str())?;
    out.push(' ')?;
    push_quoted(out, row.name.as_str())?;
    push_number(out, "bus", row.bus)?;
    push_number(out, "address", row.address)?;
    out.push_str(live_word(row.live))?;
    out.push('\n')?;
    Ok(())
}
