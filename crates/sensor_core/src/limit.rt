ghost use Rattle.std.specs.Prelude.{◌≡◌, ◌↔◌, IsTrue};
ghost use Rattle.sensor_core.specs.Limits.{IsValidLimit, is_beyond, is_back};
ghost use Rattle.sensor_core.specs.Updates.{alarm_after};

use bmc_base::Milli;

// How severe a limit is at the most.
const MOST_SEVERE: u8 = 1;

// How many thousandths a value, an offset or a hysteresis that is set has at the most.
pub(crate) const MOST_MILLI: u64 = 1_000_000_000;

/// A limit of a sensor, with the alarm that it gives.
#[derive(Clone, Copy, Debug, PartialEq, Eq)]
pub struct Limit {
    /// Whether values above the limit put the alarm on, or values below it.
    pub above: bool,
    /// How severe the alarm is, 0 or 1.
    pub severity: u8,
    /// The first value that puts the alarm on, -1,000,000.000 to 1,000,000.000.
    pub value: Milli,
    /// How far behind the limit a value may be so that the alarm stays on, 0 to 1,000,000.000.
    pub hysteresis: Milli,
}

impl Limit {
    // Whether the numbers are in their ranges.
    pub(crate) fn is_valid(&self) -> bool
        ensures { IsTrue result ↔ IsValidLimit self.now }
    {
        self.severity <= MOST_SEVERE
            && self.value.0.unsigned_abs() <= MOST_MILLI
            && self.hysteresis.0 >= 0
            && self.hysteresis.0.unsigned_abs() <= MOST_MILLI
    }

    // Whether a value is at the limit or beyond it.
    fn is_beyond(&self, value: Milli) -> bool
        ensures { result ≡ is_beyond self.now value }
    {
        if self.above {
            value.0 >= self.value.0
        } else {
            value.0 <= self.value.0
        }
    }

    // Whether a value is back from the limit by more than the hysteresis.
    #[tactic(auto, using(std::proofs::lemmas::Int::ints))]
    fn is_back(&self, value: Milli) -> bool
        requires { IsValidLimit self.now }
        ensures { result ≡ is_back self.now value }
    {
        if self.above {
            value.0 < self.value.0 - self.hysteresis.0
        } else {
            value.0 > self.value.0 + self.hysteresis.0
        }
    }

    // Whether the alarm is on after one more value.
    pub(crate) fn is_on_after(&self, was_on: bool, value: Milli) -> bool
        requires { IsValidLimit self.now }
        ensures { result ≡ alarm_after self.now was_on value }
    {
        self.is_beyond(value) || was_on && !self.is_back(value)
    }
}
