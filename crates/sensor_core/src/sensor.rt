ghost use Rattle.std.specs.Prelude.{◌≡◌, ◌↔◌, false, IsOk, IfOk, OnOk, OnErr, ◌≤◌, [], length, take, drop, All};
ghost use Rattle.sensor_core.specs.Limits.{IsValidLimit};
ghost use Rattle.sensor_core.specs.Settings.{IsValidSetting, IsRaw, most_limits};
ghost use Rattle.sensor_core.specs.Sensors.{Good, Lost, sensor_of, has_failed, age_at, is_bad, has_alarm, all_alarms, ShowSame};
ghost use Rattle.sensor_core.specs.Fresh.{fresh_until, IsGoodFor};
ghost use Rattle.sensor_core.specs.Updates.{alarms_after, good_after, lost_after, Takes};

use crate::{Limit, ReadingRange, SensorSetting};
use bmc_base::Milli;
use std::marker::Model;

// How many losses in a row make a sensor fail.
const FAILING_LOSSES: u8 = 5;

// How large a raw number is at the most.
const MOST_RAW: u64 = 1_000_000_000;

// A good reading, and the last tick at which it is not stale.
#[derive(Clone, Copy)]
struct Reading {
    value: Milli,
    tick: u64,
    fresh_until: u64,
}

/// A sensor: its setting, its last good reading, how many losses came after it, and its alarms.
#[derive(Drop)]
pub struct Sensor {
    setting: SensorSetting,
    last: Option<Reading>,
    losses: u8,
    alarms: [bool; 8],
}

impl Model for Sensor {
    ghost use Rattle.std.specs.Prelude.{◌≡◌, ◌≤◌, ◌-◌, false, take, drop, replicate, option_map};
    ghost use Rattle.std.specs.Option.{ForSome};
    ghost use Rattle.sensor_core.specs.Settings.{IsValidSetting, most_limits};
    ghost use Rattle.sensor_core.specs.Fresh.{fresh_until};
    ghost use Rattle.sensor_core.specs.Sensors.{Sensor, failing_losses};
    ghost use Rattle.sensor_core.specs.declared.sensor.Reading.{Reading};

    ghost Value = { Sensor };

    ghost view = { λ s. record {
      setting = s.setting;
      value = option_map (λ (reading : Reading). reading.value) s.last;
      read_at = option_map (λ (reading : Reading). reading.tick) s.last;
      lost = s.losses;
      alarms = take s.setting.count s.alarms;
    } };

    ghost invariant = { λ s. IsValidSetting s.setting × (s.losses ≤ failing_losses)
        × ForSome s.last (λ (reading : Reading). reading.fresh_until ≡ fresh_until s.setting.timeout reading.tick)
        × (drop s.setting.count s.alarms ≡ replicate (most_limits - s.setting.count) false) };
}

impl Sensor {
    /// Returns a sensor that had no reading and no loss, and has no alarm on.
    pub fn new(setting: SensorSetting) -> Sensor
        requires { IsValidSetting setting }
        ensures { result ≡ sensor_of setting [] }
    {
        Sensor {
            setting,
            last: None,
            losses: 0,
            alarms: [false; 8],
        }
    }

    /// Takes a good reading, a raw number at a tick. A failed sensor works again. Returns whether
    /// it shows otherwise than before: whether it had failed, or an alarm goes on or off.
    /// `ReadingRange` comes where the number is out of its range, -1,000,000,000 to 1,000,000,000,
    /// and then nothing changes.
    pub fn good(&mut self, raw: i64, tick: u64) -> Result<bool, ReadingRange>
        ensures range { IsOk result ↔ IsRaw raw }
        ensures takes { OnOk result (Takes self.old self.new (Good raw tick)) }
        ensures after { OnOk result (self.new ≡ good_after self.old raw tick) }
        ensures shown { IfOk result (λ otherwise. otherwise ≡ false ↔ ShowSame self.old (good_after self.old raw tick)) }
        ensures same { OnErr result (self.new ≡ self.old) }
    {
        if raw.unsigned_abs() > MOST_RAW {
            return Err(ReadingRange);
        }
        Ok(self.take_reading(raw, tick))
    }

    // Takes a good reading whose raw number is in its range. Returns whether the sensor shows
    // otherwise than before.
    fn take_reading(&mut self, raw: i64, tick: u64) -> bool
        requires { IsRaw raw }
        ensures after { self.new ≡ good_after self.old raw tick }
        ensures shown { result ≡ false ↔ ShowSame self.old self.new }
        ensures valid { IsValidSetting self.old.setting }
    {
        let had_failed = self.is_failed();
        let value = self.setting.value(raw);
        let switched = update_alarms(&mut self.alarms, self.setting.limits_in_use(), value);
        self.last = Some(Reading {
            value,
            tick,
            fresh_until: fresh_until(self.setting.timeout, tick),
        });
        self.losses = 0;
        had_failed || switched
    }

    /// Takes a loss. With the fifth in a row the sensor fails. The value and the alarms stay.
    pub fn lost(&mut self)
        ensures takes { Takes self.old self.new Lost }
        ensures after { self.new ≡ lost_after self.old }
    {
        if self.losses < FAILING_LOSSES {
            self.losses += 1;
        }
    }

    /// Borrows the setting.
    pub fn setting(&self) -> &SensorSetting
        ensures value { result.now ≡ self.now.setting }
        ensures valid { IsValidSetting self.now.setting }
    {
        &self.setting
    }

    /// Returns the value of the last good reading, if there was one.
    pub fn value(&self) -> Option<Milli>
        ensures { result ≡ self.now.value }
    {
        self.last.map(|reading| reading.value)
    }

    /// Whether five losses or more came after the last good reading.
    pub fn is_failed(&self) -> bool
        ensures { result ≡ has_failed self.now }
    {
        self.losses == FAILING_LOSSES
    }

    /// Returns how many ticks before this one the last good reading was, if there was one. It is 0
    /// where this tick is earlier.
    pub fn age(&self, tick: u64) -> Option<u64>
        ensures { result ≡ age_at self.now tick }
    {
        self.last.map(|reading| tick.saturating_sub(reading.tick))
    }

    /// Borrows the alarms, one for each limit in use: whether it is on.
    pub fn alarms(&self) -> &[bool]
        ensures { result.now ≡ self.now.alarms }
    {
        &self.alarms[..usize::from(self.setting.count)]
    }

    /// Whether the alarm of the limit at this position is on. No alarm is on behind the limits in
    /// use.
    pub fn alarm(&self, n: u8) -> bool
        ensures { result ≡ has_alarm self.now n }
    {
        n < self.setting.count && self.alarms[usize::from(n)]
    }

    /// Returns the alarms at all positions that a limit may have. No alarm is on behind the limits in
    /// use.
    #[inline(always)]
    pub fn all_alarms(&self) -> [bool; 8]
        ensures { result ≡ all_alarms self.now }
    {
        self.alarms
    }

    /// Whether the sensor is no good input at this tick: it had no good reading, it failed, or its
    /// last good reading is older than its timeout. A timeout of 0 never passes.
    pub fn is_bad(&self, tick: u64) -> bool
        ensures { result ≡ is_bad self.now tick }
    {
        match self.last {
            None => true,
            Some(reading) => self.is_failed() || tick > reading.fresh_until,
        }
    }

    /// Returns the last tick at which the sensor is a good input, as long as it stays as it is, or none where it is bad at this
    /// tick. It is `u64::MAX` where the timeout never passes.
    pub fn good_until(&self, tick: u64) -> Option<u64>
        ensures { IsGoodFor (is_bad self.now) tick result }
    {
        match self.last {
            Some(reading) if !self.is_bad(tick) => Some(reading.fresh_until),
            _ => None,
        }
    }
}

// The last tick at which a good reading is not older than the timeout, where there is one.
fn fresh_until(timeout: u32, tick: u64) -> u64
    ensures { result ≡ fresh_until timeout tick }
{
    if timeout == 0 {
        u64::MAX
    } else {
        tick.saturating_add(u64::from(timeout))
    }
}

// Puts the alarm of each limit on or off by one more value. Returns whether one went on or off.
fn update_alarms(alarms: &mut [bool; 8], limits: &[Limit], value: Milli) -> bool
    requires valid { All IsValidLimit limits.now }
    requires few { length limits.now ≤ most_limits }
    ensures in_use { take (length limits.now) alarms.new ≡ alarms_after limits.now (take (length limits.now) alarms.old) value }
    ensures behind { drop (length limits.now) alarms.new ≡ drop (length limits.now) alarms.old }
    ensures same { result ≡ false ↔ alarms.new ≡ alarms.old }
{
    let mut switched = false;
    for (n, limit) in limits.iter().enumerate() {
        let was_on = alarms[n];
        let is_on = limit.is_on_after(was_on, value);
        if is_on != was_on {
            switched = true;
        }
        alarms[n] = is_on;
    }
    switched
}
