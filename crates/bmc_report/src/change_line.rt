ghost use Rattle.std.specs.Prelude.{◌≡◌, ◌≤◌, ◌+◌, ◌++◌, OnOk, IfOk, length, string_bytes};
ghost use Rattle.bmc_report.specs.Changes.{verb_text, failure_text, switch_text, side_text, level_text};
ghost use Rattle.bmc_report.specs.Changes.{mode_text, change_text, change_line};
ghost use Rattle.bmc_report.specs.declared.change.Change.TheVariants as change;

use crate::board::add_board;
use crate::line::Line;
use crate::live_kind::LiveKind;
use crate::milli::add_milli;
use crate::place::add_place;
use crate::quoted::add_quoted;
use crate::refusal::add_refusal;
use crate::{Change, Refusal};
use bmc_base::{Milli, Name, OutOfMemory, Place, Text};
use std::alloc::Global;

// Puts the word for what became of a thing behind a line. A word of a known length is copied without a call.
fn add_verb(line: &mut Line, gone: bool)
    requires { length line.old.bytes + 4 ≤ 320 }
    ensures text { line.new.bytes ≡ line.old.bytes ++ verb_text gone }
    ensures size { length line.new.bytes ≤ length line.old.bytes + 4 }
{
    if gone {
        line.push_str("gone");
    } else {
        line.push_str("new");
    }
}

// Puts that a board is gone or new behind the tick.
#[tactic(auto, using(std::proofs::Common::append_assoc), unfolding(crate::specs::Changes::change_text))]
fn add_board_change(line: &mut Line, gone: bool, name: &Name, index: u32, place: Option<Place>)
    requires { length line.old.bytes ≤ 21 }
    ensures text { line.new.bytes ≡ line.old.bytes ++ change_text (change.Board gone name.now index place) }
    ensures size { length line.new.bytes ≤ 319 }
{
    add_verb(line, gone);
    line.push_str(" board ");
    add_board(line, name, index, place);
}

// Puts that a live item is gone or new behind the tick.
#[tactic(auto, using(std::proofs::Common::append_assoc), unfolding(crate::specs::Changes::change_text))]
fn add_item(line: &mut Line, gone: bool, kind: LiveKind, name: &Name)
    requires { length line.old.bytes ≤ 21 }
    ensures text { line.new.bytes ≡ line.old.bytes ++ change_text (change.Item gone kind name.now) }
    ensures size { length line.new.bytes ≤ 319 }
{
    add_verb(line, gone);
    line.push_str(" ");
    line.push_str(kind.word());
    line.push_str(" ");
    add_quoted(line, name);
}

// Puts that a poller ended for nothing behind the tick.
#[tactic(auto, using(std::proofs::Common::append_assoc), unfolding(crate::specs::Changes::change_text))]
fn add_stale(line: &mut Line, name: &Name)
    requires { length line.old.bytes ≤ 21 }
    ensures text { line.new.bytes ≡ line.old.bytes ++ change_text (change.Stale name.now) }
    ensures size { length line.new.bytes ≤ 319 }
{
    line.push_str("stale read ");
    add_quoted(line, name);
}

// Puts the word for what became of a sensor behind a line.
fn add_failure_word(line: &mut Line, failed: bool)
    requires { length line.old.bytes + 7 ≤ 320 }
    ensures text { line.new.bytes ≡ line.old.bytes ++ failure_text failed }
    ensures size { length line.new.bytes ≤ length line.old.bytes + 7 }
{
    if failed {
        line.push_str("failed");
    } else {
        line.push_str("working");
    }
}

// Puts that a sensor failed or works again behind the tick.
#[tactic(auto, using(std::proofs::Common::append_assoc), unfolding(crate::specs::Changes::change_text))]
fn add_failure(line: &mut Line, failed: bool, name: &Name)
    requires { length line.old.bytes ≤ 21 }
    ensures text { line.new.bytes ≡ line.old.bytes ++ change_text (change.Failure failed name.now) }
    ensures size { length line.new.bytes ≤ 319 }
{
    add_failure_word(line, failed);
    line.push_str(" sensor ");
    add_quoted(line, name);
}

// Puts the word for what became of an alarm behind a line.
fn add_switch(line: &mut Line, on: bool)
    requires { length line.old.bytes + 3 ≤ 320 }
    ensures text { line.new.bytes ≡ line.old.bytes ++ switch_text on }
    ensures size { length line.new.bytes ≤ length line.old.bytes + 3 }
{
    if on {
        line.push_str("on");
    } else {
        line.push_str("off");
    }
}

// Puts the word for the values at which an alarm is on behind a line.
fn add_side(line: &mut Line, high: bool)
    requires { length line.old.bytes + 4 ≤ 320 }
    ensures text { line.new.bytes ≡ line.old.bytes ++ side_text high }
    ensures size { length line.new.bytes ≤ length line.old.bytes + 4 }
{
    if high {
        line.push_str("high");
    } else {
        line.push_str("low");
    }
}

// Puts the word for how grave an alarm is behind a line.
fn add_level(line: &mut Line, critical: bool)
    requires { length line.old.bytes + 8 ≤ 320 }
    ensures text { line.new.bytes ≡ line.old.bytes ++ level_text critical }
    ensures size { length line.new.bytes ≤ length line.old.bytes + 8 }
{
    if critical {
        line.push_str("critical");
    } else {
        line.push_str("warning");
    }
}

// Puts that an alarm went on or off behind the tick.
#[tactic(auto, using(std::proofs::Common::append_assoc), unfolding(crate::specs::Changes::change_text))]
fn add_alarm(line: &mut Line, on: bool, name: &Name, position: u8, high: bool, critical: bool)
    requires { length line.old.bytes ≤ 21 }
    ensures text { line.new.bytes ≡ line.old.bytes ++ change_text (change.Alarm on name.now position high critical) }
    ensures size { length line.new.bytes ≤ 319 }
{
    line.push_str("alarm ");
    add_switch(line, on);
    line.push_str(" ");
    add_quoted(line, name);
    line.push_str(" ");
    line.push_str(itoa::Buffer::new().format(position));
    line.push_str(" ");
    add_side(line, high);
    line.push_str(" ");
    add_level(line, critical);
}

// The mode of a zone.
pub(crate) fn mode(failsafe: bool) -> &'static str
    ensures text { result.now ≡ mode_text failsafe }
    ensures short { length result.now ≤ 8 }
{
    if failsafe { "failsafe" } else { "normal" }
}

// Puts that a zone went into failsafe or is normal again behind the tick.
#[tactic(auto, using(std::proofs::Common::append_assoc), unfolding(crate::specs::Changes::change_text))]
fn add_zone(line: &mut Line, failsafe: bool, name: &Name)
    requires { length line.old.bytes ≤ 21 }
    ensures text { line.new.bytes ≡ line.old.bytes ++ change_text (change.Zone failsafe name.now) }
    ensures size { length line.new.bytes ≤ 319 }
{
    line.push_str(mode(failsafe));
    line.push_str(" zone ");
    add_quoted(line, name);
}

// Puts the duty of a fan behind the tick.
#[tactic(auto, using(std::proofs::Common::append_assoc), unfolding(crate::specs::Changes::change_text))]
fn add_duty(line: &mut Line, name: &Name, duty: Milli)
    requires { length line.old.bytes ≤ 21 }
    ensures text { line.new.bytes ≡ line.old.bytes ++ change_text (change.Duty name.now duty) }
    ensures size { length line.new.bytes ≤ 319 }
{
    line.push_str("duty fan ");
    add_quoted(line, name);
    line.push_str(" ");
    add_milli(line, duty);
}

// Puts that a FRU was refused behind the tick, with its place and why.
#[tactic(auto, using(std::proofs::Common::append_assoc), unfolding(crate::specs::Changes::change_text))]
fn add_refused_plug(line: &mut Line, place: Place, refusal: Refusal)
    requires { length line.old.bytes ≤ 21 }
    ensures text { line.new.bytes ≡ line.old.bytes ++ change_text (change.PlugRefused place refusal) }
    ensures size { length line.new.bytes ≤ 319 }
{
    line.push_str("refused plug ");
    add_place(line, place);
    line.push_str(" ");
    add_refusal(line, refusal);
}

// Puts what is printed of a change behind the tick.
fn add_change(line: &mut Line, change: &Change)
    requires { length line.old.bytes ≤ 21 }
    ensures text { line.new.bytes ≡ line.old.bytes ++ change_text change.now }
    ensures size { length line.new.bytes ≤ 319 }
{
    match change {
        Change::Board {
            gone,
            name,
            index,
            place,
        } => add_board_change(line, *gone, name, *index, *place),
        Change::Item { gone, kind, name } => add_item(line, *gone, *kind, name),
        Change::Stale { name } => add_stale(line, name),
        Change::Failure { failed, name } => add_failure(line, *failed, name),
        Change::Alarm {
            on,
            name,
            position,
            high,
            critical,
        } => add_alarm(line, *on, name, *position, *high, *critical),
        Change::Zone { failsafe, name } => add_zone(line, *failsafe, name),
        Change::Duty { name, duty } => add_duty(line, name, *duty),
        Change::PlugRefused { place, refusal } => add_refused_plug(line, *place, *refusal),
    }
}

/// Appends the line that is printed of a change. `tick` counts the ticks up to it, of 100 milliseconds each; the
/// changes of a tick count it.
#[tactic(auto, using(std::proofs::Common::append_assoc))]
pub fn push_change(out: &mut String, tick: u64, change: &Change) -> Result<(), OutOfMemory>
    ensures { OnOk result (string_bytes out.new ≡ string_bytes out.old ++ change_line tick change.now) }
{
    let mut digits = itoa::Buffer::new();
    let ticks = digits.format(tick);
    // The line is made last, so that its length is known at the first push and need not be read back.
    let mut line = Line::new();
    line.push_str(ticks);
    line.push_str(" ");
    add_change(&mut line, change);
    line.push_str("\n");
    out.push_str(line.as_str())?;
    Ok(())
}

/// Returns the line that is printed of a change, as `push_change` appends it. Fails only for want of memory.
pub fn change_text(alloc: Global, tick: u64, change: &Change) -> Result<Text, OutOfMemory>
    ensures { IfOk result (λ text. text ≡ change_line tick change.now) }
{
    let mut out = String::new(alloc);
    push_change(&mut out, tick, change)?;
    Text::copy(alloc, out.as_str())
}
