ghost use Rattle.std.specs.Prelude.{◌≡◌, ◌<◌, true, None, Some, length, map, slice_get, pos};
ghost use Rattle.std.specs.List.{All};
ghost use Rattle.std.specs.Option.{ForSome};
ghost use Rattle.ctl_face.specs.Ranges.{IsMilli};
ghost use Rattle.fan_zone.specs.Rows.{commanded, failsafe_percent, fan_row, held_at, held_duty, is_failsafe, min_thermal, numbered};
ghost use Rattle.fan_zone.specs.Rows.{raised, thermal_output, zone_row};
ghost use Rattle.fan_zone.specs.RowSteps.{IsCommanded, bare_row, with_held};
ghost use Rattle.fan_zone.specs.Sound.{AreInZones, AreSeated, AreSmall, AreSmallPlans, AreSmallRows, HasSmallRow, IsSeated};
ghost use Rattle.fan_zone.specs.Steady.{AreShown, is_due};
ghost use Rattle.fan_zone.specs.Ticks.{aged};

use crate::bank::Bank;
use crate::held::Held;
use crate::passes::thermal_setpoint;
use crate::reading::has_bad_input;
use crate::rows::{FanPlan, FanRow, ZonePlan, ZoneRow};
use bmc_base::Milli;
use ctl_face::Controller;
use sensor_core::SensorTable;

// The last output of a controller, if it is a thermal one.
fn thermal_output<C: Controller>(bank: &Bank<C>, held: &Held) -> Option<i64>
    requires seat { IsSeated bank.now held.now }
    requires small { AreSmall bank.now }
    ensures value { result ≡ thermal_output held.now.zone bank.now held.now }
    ensures small { ForSome result IsMilli }
{
    if thermal_setpoint(held.role).is_some() {
        bank.output(held.number)
    } else {
        None
    }
}

// The greater one.
#[tactic(auto, using(std::proofs::lemmas::Int::ints))]
fn raised(best: i64, output: Option<i64>) -> i64
    requires best { IsMilli best }
    requires output { ForSome output IsMilli }
    ensures value { result ≡ raised best output }
    ensures small { IsMilli result }
{
    match output {
        None => best,
        Some(output) => { if output < best { best } else { output } }
    }
}

// Shows each zone as if it had no controllers.
fn show_bare(rows: &mut [ZoneRow], plans: &[ZonePlan])
    requires plans { length plans.now ≡ length rows.old }
    requires lows { AreSmallPlans plans.now }
    ensures rows { rows.new ≡ numbered (bare_row plans.now) 0 rows.old }
    ensures small { AreSmallRows rows.new }
{
    for zone in 0..rows.len() {
        let low = plans[zone].setting.min_thermal;
        let row = &mut rows[zone];
        row.failsafe = false;
        row.setpoint = Some(low);
    }
}

// Adds a controller to what its zone shows: a bad input puts the zone in failsafe, and a thermal output raises its setpoint.
fn show_held<C: Controller>(
    row: &mut ZoneRow,
    held: &Held,
    bank: &Bank<C>,
    sensors: &SensorTable,
    now: u64,
)
    requires seat { IsSeated bank.now held.now }
    requires small { AreSmall bank.now }
    requires row { HasSmallRow row.old }
    ensures row { row.new ≡ with_held sensors.now.slots now bank.now held.now row.old }
    ensures small { HasSmallRow row.new }
{
    // Inputs are read only until one is bad: the others change nothing.
    if !row.failsafe {
        row.failsafe = has_bad_input(sensors, now, held.inputs.as_slice());
    }
    if let Some(best) = row.setpoint {
        row.setpoint = Some(Milli(raised(best.0, thermal_output(bank, held))));
    }
}

// Shows the setpoint and the mode of each zone.
fn show_all_zones<C: Controller>(
    rows: &mut [ZoneRow],
    plans: &[ZonePlan],
    held: &[Held],
    bank: &Bank<C>,
    sensors: &SensorTable,
    now: u64,
)
    requires seats { AreSeated bank.now held.now }
    requires small { AreSmall bank.now }
    requires plans { length plans.now ≡ length rows.old }
    requires zones { AreInZones rows.old held.now }
    requires lows { AreSmallPlans plans.now }
    ensures rows { rows.new ≡ numbered (zone_row sensors.now.slots now plans.now held.now bank.now) 0 rows.old }
    ensures small { AreSmallRows rows.new }
{
    show_bare(rows, plans);
    // A controller touches the row of its own zone alone, so a tick costs zones plus controllers, and not their product.
    for one in held {
        show_held(&mut rows[one.zone], one, bank, sensors, now);
    }
}

/// Shows the setpoint and the mode of each zone. Where they are known to stay as they are, nothing is done.
pub(crate) fn show_zones<C: Controller>(
    rows: &mut [ZoneRow],
    plans: &[ZonePlan],
    held: &[Held],
    bank: &Bank<C>,
    sensors: &SensorTable,
    now: u64,
    stay: bool,
)
    requires seats { AreSeated bank.now held.now }
    requires small { AreSmall bank.now }
    requires plans { length plans.now ≡ length rows.old }
    requires zones { AreInZones rows.old held.now }
    requires lows { AreSmallPlans plans.now }
    requires stay { stay ≡ true → AreShown sensors.now.slots now plans.now held.now bank.now rows.old }
    ensures rows { rows.new ≡ numbered (zone_row sensors.now.slots now plans.now held.now bank.now) 0 rows.old }
    ensures small { AreSmallRows rows.new }
{
    if !stay {
        show_all_zones(rows, plans, held, bank, sensors, now);
    }
}

// What a fan is commanded by a controller whose output this is.
#[tactic(auto, using(std::proofs::lemmas::Int::ints))]
fn commanded(strict: bool, failsafe: bool, percent: i64, output: i64) -> i64
    ensures { result ≡ commanded strict failsafe percent output }
{
    if !failsafe {
        output
    } else if strict || output < percent {
        percent
    } else {
        output
    }
}

// The duty of a fan that this controller holds.
fn duty_by<C: Controller>(
    held: &Held,
    bank: &Bank<C>,
    plans: &[ZonePlan],
    rows: &[ZoneRow],
    strict: bool,
) -> i64
    requires seat { IsSeated bank.now held.now }
    requires plans { length plans.now ≡ length rows.now }
    requires zone { held.now.zone < length rows.now }
    ensures { result ≡ held_duty strict bank.now plans.now rows.now (Some held.now) }
{
    let failsafe = rows[held.zone].failsafe;
    let percent = plans[held.zone].setting.failsafe.0;
    let output = bank.output(held.number).unwrap_or(100_000);
    commanded(strict, failsafe, percent, output)
}

// The duty of a fan.
fn duty<C: Controller>(
    holder: Option<usize>,
    held: &[Held],
    bank: &Bank<C>,
    plans: &[ZonePlan],
    rows: &[ZoneRow],
    strict: bool,
) -> Milli
    requires seats { AreSeated bank.now held.now }
    requires plans { length plans.now ≡ length rows.now }
    requires zones { AreInZones rows.now held.now }
    ensures { result.0 ≡ held_duty strict bank.now plans.now rows.now (held_at held.now holder) }
{
    match holder {
        None => Milli(100_000),
        Some(number) => match held.get(number) {
            None => Milli(100_000),
            Some(one) => Milli(duty_by(one, bank, plans, rows, strict)),
        },
    }
}

// What the fans of a holder are commanded.
#[derive(Clone, Copy)]
struct Command {
    holder: Option<usize>,
    duty: Milli,
}

// What the fans of this holder are commanded, which is looked up where it is not the holder of the last fan.
fn command_of<C: Controller>(
    last: Command,
    holder: Option<usize>,
    held: &[Held],
    bank: &Bank<C>,
    plans: &[ZonePlan],
    rows: &[ZoneRow],
    strict: bool,
) -> Command
    requires seats { AreSeated bank.now held.now }
    requires plans { length plans.now ≡ length rows.now }
    requires zones { AreInZones rows.now held.now }
    requires last { IsCommanded strict bank.now plans.now rows.now held.now last.holder last.duty.0 }
    ensures duty { IsCommanded strict bank.now plans.now rows.now held.now holder result.duty.0 }
    ensures holder { result.holder ≡ holder }
{
    if holder == last.holder {
        return last;
    }
    let duty = duty(holder, held, bank, plans, rows, strict);
    Command { holder, duty }
}

/// Shows the duty of each fan. Fans that one controller holds mostly stand together, so it is mostly looked up once for all.
pub(crate) fn show_fans<C: Controller>(
    fans: &mut [FanRow],
    fan_plans: &[FanPlan],
    held: &[Held],
    bank: &Bank<C>,
    plans: &[ZonePlan],
    rows: &[ZoneRow],
    strict: bool,
)
    requires seats { AreSeated bank.now held.now }
    requires plans { length plans.now ≡ length rows.now }
    requires zones { AreInZones rows.now held.now }
    requires fans { length fan_plans.now ≡ length fans.old }
    ensures { fans.new ≡ numbered (fan_row strict held.now bank.now plans.now rows.now fan_plans.now) 0 fans.old }
{
    let mut last = Command {
        holder: None,
        duty: Milli(100_000),
    };
    for fan in 0..fans.len() {
        let holder = fan_plans[fan].holder;
        last = command_of(last, holder, held, bank, plans, rows, strict);
        let row = &mut fans[fan];
        row.duty = Some(last.duty);
    }
}

/// Counts the tick in the run of each controller.
pub(crate) fn grow_ages(held: &mut [Held])
    ensures { held.new ≡ map aged held.old }
{
    for number in 0..held.len() {
        let one = &mut held[number];
        one.age = ((u16::from(one.age) + 1) % 10) as u8;
    }
}

/// Whether one of some controllers is at the first of ten ticks of its run.
pub(crate) fn is_some_due(held: &[Held]) -> bool
    ensures { result ≡ is_due held.now }
{
    held.iter().any(|one| one.age == 0)
}
