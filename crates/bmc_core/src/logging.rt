ghost use Rattle.std.specs.Prelude.{◌≡◌, [], ◌∷◌};
ghost use Rattle.bmc_machine.specs.Logs.{class_by, class_of};
ghost use Rattle.bmc_core.specs.Acts.{step_of};
ghost use Rattle.bmc_core.specs.Logging.{Logs, heard, plug_place};

use crate::{Act, CoreFault};
use bmc_base::{Ledger, Place};
use bmc_report::Change;
use event_log::{Class, Log};

// The class of what is wrong, and of what is right again.
fn class_by(wrong: bool) -> Class
    ensures { result ≡ class_by wrong }
{
    if wrong { Class::Error } else { Class::Info }
}

// The class of a change in the log, or none if it is not logged.
fn class_of(change: &Change) -> Option<Class>
    ensures { result ≡ class_of change.now }
{
    match change {
        Change::Board { .. } => Some(Class::Info),
        Change::Failure { failed, .. } => Some(class_by(*failed)),
        Change::Alarm { on, .. } => Some(class_by(*on)),
        Change::Zone { failsafe, .. } => Some(class_by(*failsafe)),
        Change::PlugRefused { .. } => Some(Class::Error),
        Change::Item { .. } | Change::Stale { .. } | Change::Duty { .. } => None,
    }
}

// Notes a change at a tick count, if it is logged.
#[inline(never)]
fn note_change(log: &mut Log, tick: u64, change: &Change)
    ensures { Logs log.old tick (change.now ∷ []) log.new }
{
    if let Some(class) = class_of(change) {
        log.add(class, tick, change.copied());
    }
}

/// Notes changes in turn, all at one tick count. It takes no memory.
#[inline(always)]
pub(crate) fn note_changes(log: &mut Log, tick: u64, changes: &[Change])
    ensures { Logs log.old tick changes.now log.new }
{
    for change in changes {
        note_change(log, tick, change);
    }
}

/// Returns the place of a plug, and none of any other act.
pub(crate) fn plug_place<L: Ledger>(act: &Act<'_, L>) -> Option<Place>
    ensures { result ≡ plug_place (step_of act.now) }
{
    match act {
        Act::Plug(place, _) => Some(*place),
        _ => None,
    }
}

/// Notes what came of an act, at the tick count after it: what it changed, if it was done, and that it was refused, if it was a
/// plug, at this place. It takes no memory.
#[inline(always)]
pub(crate) fn note_answer(
    log: &mut Log,
    tick: u64,
    changes: &[Change],
    plugged: Option<Place>,
    answer: Result<(), CoreFault>,
)
    ensures { Logs log.old tick (heard answer plugged changes.now) log.new }
{
    match answer {
        Ok(()) => note_changes(log, tick, changes),
        Err(CoreFault::Refused(refusal)) => {
            if let Some(place) = plugged {
                note_change(log, tick, &Change::PlugRefused { place, refusal });
            }
        }
        Err(CoreFault::OutOfMemory) => {}
    }
}
