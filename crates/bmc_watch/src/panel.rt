ghost use Rattle.std.specs.Prelude.{◌≡◌, ◌+◌, ◌≤◌, ◌++◌, [], length, map, vec_capacity, vec_len};
ghost use Rattle.std.specs.List.{flat_map, zip};
ghost use Rattle.bmc_machine.specs.Changes.{mode_change, duty_change};
ghost use Rattle.bmc_watch.specs.Panels.{modes_of, duties_of, panel_of, panel_changes, row_mode, row_duty};
ghost use Rattle.bmc_watch.specs.Readings.{most_changes};
ghost use Rattle.fan_zone.specs.Sound.{most_zones, most_fans};

use arrayvec::ArrayVec;
use bmc_base::Milli;
use bmc_report::Change;
use fan_zone::{FanRow, ZoneRow};
use std::marker::Model;

/// What zones and fans show at one moment that changes are told by: the mode of each zone, and the duty of each fan. It takes
/// no memory beyond its own, and can note one moment after another.
#[derive(Drop)]
pub struct Panel {
    modes: ArrayVec<bool, 32>,
    duties: ArrayVec<Option<Milli>, 128>,
}

impl Model for Panel {
    ghost use Rattle.bmc_watch.specs.Panels.{PanelView};

    ghost Value = { PanelView };

    ghost view = { λ p. record { modes = p.modes.items; duties = p.duties.items } };
}

// Puts the modes of zones in place of those that are there.
fn note_modes(zones: &[ZoneRow], modes: &mut ArrayVec<bool, 32>)
    requires { length zones.now ≤ most_zones }
    ensures { modes.new.items ≡ modes_of zones.now }
{
    modes.clear();
    for zone in zones {
        modes.push(zone.failsafe);
    }
}

// Puts the duties of fans in place of those that are there.
fn note_duties(fans: &[FanRow], duties: &mut ArrayVec<Option<Milli>, 128>)
    requires { length fans.now ≤ most_fans }
    ensures { duties.new.items ≡ duties_of fans.now }
{
    duties.clear();
    for fan in fans {
        duties.push(fan.duty);
    }
}

impl Panel {
    /// Returns a panel of no zones and no fans.
    pub fn new() -> Panel
        ensures { result ≡ panel_of [] [] }
    {
        Panel {
            modes: ArrayVec::new(),
            duties: ArrayVec::new(),
        }
    }

    /// Notes what zones and fans show, in place of what was noted before.
    pub fn note(&mut self, zones: &[ZoneRow], fans: &[FanRow])
        requires zones { length zones.now ≤ most_zones }
        requires fans { length fans.now ≤ most_fans }
        ensures { self.new ≡ panel_of zones.now fans.now }
    {
        note_modes(zones, &mut self.modes);
        note_duties(fans, &mut self.duties);
    }
}

// Appends that a zone shows another mode. There is room for it.
fn append_mode(was: bool, row: &ZoneRow, changes: &mut Vec<Change>)
    requires { vec_len changes.old + 1 ≤ vec_capacity changes.old }
    ensures items { changes.new.items ≡ changes.old.items ++ mode_change row.now.name was row.now.failsafe }
    ensures len { vec_len changes.new ≤ vec_len changes.old + 1 }
    ensures capacity { vec_capacity changes.new ≡ vec_capacity changes.old }
{
    if was != row.failsafe {
        changes.push_reserved(Change::Zone {
            failsafe: row.failsafe,
            name: row.name.copied(),
        });
    }
}

// Appends that a fan shows another duty. There is room for it.
fn append_duty(was: Option<Milli>, row: &FanRow, changes: &mut Vec<Change>)
    requires { vec_len changes.old + 1 ≤ vec_capacity changes.old }
    ensures items { changes.new.items ≡ changes.old.items ++ duty_change row.now.name was row.now.duty }
    ensures len { vec_len changes.new ≤ vec_len changes.old + 1 }
    ensures capacity { vec_capacity changes.new ≡ vec_capacity changes.old }
{
    if let Some(duty) = row.duty {
        if was != Some(duty) {
            changes.push_reserved(Change::Duty {
                name: row.name.copied(),
                duty,
            });
        }
    }
}

// Appends a change for each zone that shows another mode. There is room for them.
fn append_modes(before: &[bool], rows: &[ZoneRow], changes: &mut Vec<Change>)
    requires { vec_len changes.old + length rows.now ≤ vec_capacity changes.old }
    ensures items { changes.new.items ≡ changes.old.items ++ flat_map row_mode (zip before.now rows.now) }
    ensures len { vec_len changes.new ≤ vec_len changes.old + length rows.now }
    ensures capacity { vec_capacity changes.new ≡ vec_capacity changes.old }
{
    for (was, row) in before.iter().zip(rows) {
        append_mode(*was, row, changes);
    }
}

// Appends a change for each fan that shows another duty. There is room for them.
fn append_duties(before: &[Option<Milli>], rows: &[FanRow], changes: &mut Vec<Change>)
    requires { vec_len changes.old + length rows.now ≤ vec_capacity changes.old }
    ensures items { changes.new.items ≡ changes.old.items ++ flat_map row_duty (zip before.now rows.now) }
    ensures len { vec_len changes.new ≤ vec_len changes.old + length rows.now }
    ensures capacity { vec_capacity changes.new ≡ vec_capacity changes.old }
{
    for (was, row) in before.iter().zip(rows) {
        append_duty(*was, row, changes);
    }
}

/// Appends what zones, and then fans, show otherwise than before. There is room for it.
pub(crate) fn append_panel(
    before: &Panel,
    zones: &[ZoneRow],
    fans: &[FanRow],
    changes: &mut Vec<Change>,
)
    requires zones { length zones.now ≤ most_zones }
    requires fans { length fans.now ≤ most_fans }
    requires room { vec_len changes.old + most_changes ≤ vec_capacity changes.old }
    ensures items { changes.new.items ≡ changes.old.items ++ panel_changes before.now zones.now fans.now }
    ensures capacity { vec_capacity changes.new ≡ vec_capacity changes.old }
{
    append_modes(before.modes.as_slice(), zones, changes);
    append_duties(before.duties.as_slice(), fans, changes);
}
