ghost use Rattle.std.specs.Prelude.{◌≡◌, false, bytes_eq, take};
ghost use Rattle.std.specs.List.{list_any};
ghost use Rattle.inventory.specs.declared.shown.Shown.{Shown as BoardShown};
ghost use Rattle.bmc_core.specs.Acting.{asks_for_some, is_named, is_as_long, AreNoted, NotesLength};

use bmc_base::{LONGEST_NAME, Name};
use bmc_report::{Change, LiveKind};
use cfg_json::{Item, ItemPart};
use inventory::Shown;

// For each length that a name may have, whether a sensor with a name so long is gone or new.
type Lengths = [bool; LONGEST_NAME + 1];

// Notes the length of the name of a sensor, if a change tells that it is gone or new.
fn note_length(lengths: &mut Lengths, change: &Change)
    ensures { NotesLength lengths.old change.now lengths.new }
{
    match change {
        Change::Item { kind, name, .. } => match kind {
            LiveKind::Sensor => lengths[name.as_str().len()] = true,
            LiveKind::Zone | LiveKind::Fan | LiveKind::Controller => {}
        },
        _ => {}
    }
}

// Some changes, and the lengths of the names of the sensors that are gone or new by them.
#[derive(Drop)]
struct SensorChanges<'c> {
    changes: &'c [Change],
    lengths: Lengths,
    ghost noted: { AreNoted lengths changes.now },
}

// Whether two names are the same.
fn same_name(name: &Name, other: &Name) -> bool
    ensures { result ≡ bytes_eq name.now other.now }
{
    name.as_str().len() == other.as_str().len() && name == other
}

// Whether a name is among the names.
fn is_among(name: &Name, names: &[Name]) -> bool
    ensures { result ≡ list_any (bytes_eq name.now) names.now }
{
    names.iter().any(|one| same_name(name, one))
}

// Whether a change tells that a sensor with one of these names is gone or new.
fn is_named(change: &Change, names: &[Name]) -> bool
    ensures { result ≡ is_named names.now change.now }
{
    match change {
        Change::Item { kind, name, .. } => match kind {
            LiveKind::Sensor => is_among(name, names),
            LiveKind::Zone | LiveKind::Fan | LiveKind::Controller => false,
        },
        _ => false,
    }
}

// Whether one of some changes tells that.
fn some_named(changes: &[Change], names: &[Name]) -> bool
    ensures { result ≡ list_any (is_named names.now) changes.now }
{
    changes.iter().any(|change| is_named(change, names))
}

// Whether one of some names is as long as one that is noted.
fn some_are_as_long(names: &[Name], lengths: &Lengths) -> bool
    ensures { result ≡ list_any (is_as_long lengths.now) names.now }
{
    names.iter().any(|name| lengths[name.as_str().len()])
}

impl<'c> SensorChanges<'c> {
    // Returns these changes with the lengths.
    fn of(changes: &'c [Change]) -> SensorChanges<'c>
        ensures { result.changes.now ≡ changes.now }
    {
        let mut lengths = [false; LONGEST_NAME + 1];
        for change in changes {
            note_length(&mut lengths, change);
        }
        SensorChanges { changes, lengths }
    }

    // Whether a sensor with one of these names is gone or new. Names are compared only where one is as long as one of a sensor
    // that is.
    fn have_some(&self, names: &[Name]) -> bool
        ensures { result ≡ list_any (is_named names.now) self.now.changes.now }
    {
        some_are_as_long(names, &self.lengths) && some_named(self.changes, names)
    }
}

// Whether an item is a controller, and one of its inputs is gone or new by these changes.
fn asks_for_some(item: &Item, changes: &SensorChanges<'_>) -> bool
    ensures { result ≡ asks_for_some changes.now.changes.now item.now }
{
    match &item.part {
        ItemPart::Control(control) => changes.have_some(control.get().inputs.as_slice()),
        _ => false,
    }
}

// Whether one of some items is such a controller.
fn some_ask(items: &[Item], changes: &SensorChanges<'_>) -> bool
    ensures { result ≡ list_any (asks_for_some changes.now.changes.now) items.now }
{
    items.iter().any(|item| asks_for_some(item, changes))
}

// Whether a board has such a controller. The items of one without controllers are not looked at.
#[tactic(auto, using(crate::proofs::AskingLemmas::none_ask))]
fn has_asking(board: &Shown, changes: &SensorChanges<'_>) -> bool
    ensures { result ≡ list_any (asks_for_some changes.now.changes.now) board.now.items.items }
{
    board.controls && some_ask(&board.items, changes)
}

/// Whether one of some boards has a controller with an input that is gone or new by these changes.
pub(crate) fn some_have_asking(boards: &[Shown], changes: &[Change]) -> bool
    ensures { result ≡ list_any (λ (board : BoardShown). list_any (asks_for_some changes.now) board.items.items) boards.now }
{
    let changes = SensorChanges::of(changes);
    boards.iter().any(|board| has_asking(board, &changes))
}
