ghost use Rattle.std.specs.Prelude.{◌≡◌};
ghost use Rattle.bmc_core.specs.Health.{good_until, health_after_event, health_after_reading, health_after_loss, is_good_at, IsTrueOf};

use ctl_face::Controller;
use fan_zone::Zones;
use sensor_core::{Sensor, SensorTable};

/// What is known of the inputs of all controllers.
#[derive(Clone, Copy)]
pub(crate) enum InputHealth {
    /// Since the last tick zones were set, or a loss came with which a sensor failed.
    Unknown,
    /// Neither happened since the last tick, and they were not looked at.
    Unasked,
    /// One of them is bad, and stays so until it is read.
    Bad,
    /// None of them is bad up to this tick.
    GoodUntil(u64),
}

impl InputHealth {
    /// Whether it is known that none of them is bad at this tick.
    pub(crate) fn is_good_at(self, now: u64) -> bool
        ensures { result ≡ is_good_at self now }
    {
        match self {
            InputHealth::GoodUntil(last) => now <= last,
            _ => false,
        }
    }

    /// What is known after a good reading at tick `now` of this sensor, given as it was before. The reading makes no input bad, and
    /// the sensor is good from then on for as long as its timeout is.
    pub(crate) fn after_reading(self, sensor: &Sensor, now: u64) -> InputHealth
        ensures { result ≡ health_after_reading self sensor.now now }
    {
        match self {
            InputHealth::GoodUntil(last) => {
                let until = good_until(sensor.setting().timeout, now);
                InputHealth::GoodUntil(last.min(until))
            }
            InputHealth::Bad if sensor.is_bad(now) => InputHealth::Unasked,
            other => other,
        }
    }

    /// What is known after a loss of this sensor, given as it is then, which had failed before or not. Only the loss with which a
    /// sensor fails makes an input bad.
    pub(crate) fn after_loss(self, had_failed: bool, sensor: &Sensor) -> InputHealth
        ensures { result ≡ health_after_loss self had_failed sensor.now }
    {
        if sensor.is_failed() && !had_failed {
            InputHealth::Unknown
        } else {
            self
        }
    }

    /// What is known after an event behind which zones were left as they are, or not. They are left where no sensor went or came that is
    /// an input.
    pub(crate) fn after_event(self, left: bool) -> InputHealth
        ensures { result ≡ health_after_event self left }
    {
        if left { self } else { InputHealth::Unknown }
    }
}

// The last tick at which a sensor with this timeout is good that is read at tick `now`.
fn good_until(timeout: u32, now: u64) -> u64
    ensures { result ≡ good_until timeout now }
{
    if timeout == 0 {
        u64::MAX
    } else {
        now.saturating_add(u64::from(timeout))
    }
}

/// What is known after a tick at which it was known, or not, that none of them is bad. They are looked at behind the second tick
/// since zones were set: where they are set before each tick, that would be in vain.
pub(crate) fn health_after<C: Controller>(
    health: InputHealth,
    good: bool,
    zones: &Zones<C>,
    sensors: &SensorTable,
    now: u64,
) -> InputHealth
    requires { IsTrueOf sensors.now.slots zones.now.held health }
    ensures { IsTrueOf sensors.now.slots zones.now.held result }
{
    if good {
        return health;
    }
    match health {
        InputHealth::Unknown => InputHealth::Unasked,
        InputHealth::Bad => InputHealth::Bad,
        InputHealth::Unasked | InputHealth::GoodUntil(_) => match zones.good_until(sensors, now) {
            None => InputHealth::Bad,
            Some(last) => InputHealth::GoodUntil(last),
        },
    }
}
