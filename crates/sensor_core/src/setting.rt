ghost use Rattle.std.specs.Prelude.{◌≡◌, ◌≤◌, ◌≤ℤ◌, ◌↔◌, IsTrue, pos};
ghost use Rattle.std.specs.Int.{int_div_euclid};
ghost use Rattle.sensor_core.specs.Settings.{IsValidScale, IsValidSetting, IsRaw, most_limits, limits_of, value_of};

use crate::Limit;
use crate::limit::MOST_MILLI;
use bmc_base::Milli;

// How large a factor, a divisor or a timeout is at the most.
const MOST_SCALE: u64 = 1_000_000;

// How many limits a sensor has at the most.
const MOST_LIMITS: u8 = 8;

/// How the values of a sensor come of raw numbers, when they are too old, and which alarms they
/// give.
#[derive(Clone, Copy, Debug, PartialEq, Eq)]
pub struct SensorSetting {
    /// The factor of a raw number, -1,000,000 to 1,000,000.
    pub num: i64,
    /// The divisor of a raw number, 1 to 1,000,000. The quotient is rounded down.
    pub den: i64,
    /// What is added to the quotient, -1,000,000.000 to 1,000,000.000.
    pub offset: Milli,
    /// How many ticks old the last good reading may be, 0 to 1,000,000. At 0 it never is too old.
    pub timeout: u32,
    /// The limits, of which the first `count` are in use.
    pub limits: [Limit; 8],
    /// How many limits are in use, 0 to 8.
    pub count: u8,
}

// Returns the quotient of two numbers, rounded down. A divisor of 1 is told apart: most sensors have it, and no other step of a
// reading takes as long as a division.
fn quotient(number: i64, divisor: i64) -> i64
    requires { pos 1 ≤ℤ divisor }
    ensures { result ≡ int_div_euclid number divisor }
{
    if divisor == 1 {
        number
    } else {
        number.div_euclid(divisor)
    }
}

impl SensorSetting {
    /// Whether the numbers of the setting, and those of its limits in use, are in their ranges.
    pub fn is_valid(&self) -> bool
        ensures { IsTrue result ↔ IsValidSetting self.now }
    {
        self.has_valid_scale()
            && u64::from(self.timeout) <= MOST_SCALE
            && self.count <= MOST_LIMITS
            && self.limits_in_use().iter().all(|limit| limit.is_valid())
    }

    /// Borrows the limits in use.
    pub fn limits_in_use(&self) -> &[Limit]
        requires { self.now.count ≤ most_limits }
        ensures { result.now ≡ limits_of self.now }
    {
        &self.limits[..usize::from(self.count)]
    }

    // Whether the numbers by which a raw number becomes a value are in their ranges.
    fn has_valid_scale(&self) -> bool
        ensures { IsTrue result ↔ IsValidScale self.now }
    {
        self.num.unsigned_abs() <= MOST_SCALE
            && self.den >= 1
            && self.den.unsigned_abs() <= MOST_SCALE
            && self.offset.0.unsigned_abs() <= MOST_MILLI
    }

    // Returns the value of a raw number.
    pub(crate) fn value(&self, raw: i64) -> Milli
        requires setting { IsValidSetting self.now }
        requires raw { IsRaw raw }
        ensures { result ≡ value_of self.now raw }
    {
        Milli(quotient(raw * self.num, self.den) + self.offset.0)
    }
}
