ghost use Rattle.std.specs.Prelude.{◌≡◌, ◌≤◌, ◌+◌, ◌++◌, OnOk, length, string_bytes};
ghost use Rattle.bmc_report.specs.Places.{place_text};

use arrayvec::ArrayString;
use bmc_base::{OutOfMemory, Place};

// The most bytes of a place: two numbers of three digits.
const LONGEST_PLACE: usize = 7;

// Puts the bus and the address of a place behind what is there.
#[tactic(auto, using(std::proofs::Common::append_assoc))]
pub(crate) fn add_place<const ROOM: usize>(text: &mut ArrayString<ROOM>, place: Place)
    requires { length text.old.bytes + 7 ≤ ROOM }
    ensures text { text.new.bytes ≡ text.old.bytes ++ place_text place }
    ensures size { length text.new.bytes ≤ length text.old.bytes + 7 }
{
    text.push_str(itoa::Buffer::new().format(place.bus()));
    text.push_str(" ");
    text.push_str(itoa::Buffer::new().format(place.address()));
}

// Appends the bus and the address of a place.
pub(crate) fn push_place(out: &mut String, place: Place) -> Result<(), OutOfMemory>
    ensures { OnOk result (string_bytes out.new ≡ string_bytes out.old ++ place_text place) }
{
    let mut text = ArrayString::<LONGEST_PLACE>::new();
    add_place(&mut text, place);
    out.push_str(text.as_str())?;
    Ok(())
}
