ghost use Rattle.std.specs.Prelude.{◌≡◌};
ghost use Rattle.ctl_face.specs.Kinds.{kind_of};

use crate::Kind;
use bmc_base::Milli;

/// What a PID controller controls.
#[derive(Clone, Copy, Debug, PartialEq, Eq)]
pub enum PidClass {
    /// The speed of fans. It steps at each tick of 100 ms, and its outputs are percent.
    Fan,
    /// A temperature, which rises where fans are too slow. It steps at every tenth tick.
    Temp,
    /// The room below a limit, which falls where fans are too slow. It steps at every tenth tick.
    Margin,
}

/// The setting of a PID controller. Coefficients are millionths, within 1,000,000 units of 0. Other
/// numbers are thousandths, within 1,000,000 units of 0.
#[derive(Clone, Copy, Debug, PartialEq, Eq)]
pub struct PidSetting {
    /// What is controlled.
    pub class: PidClass,
    /// The reading that is wanted, which the samples carry. It is 0 for class fan, whose samples
    /// carry that of a zone.
    pub setpoint: Milli,
    /// The coefficient of the error.
    pub p: i64,
    /// The coefficient of the integral, for a second.
    pub i: i64,
    /// The coefficient of the change of the error, for a second.
    pub d: i64,
    /// The coefficient of the setpoint.
    pub ff_gain: i64,
    /// What is added to the setpoint before it is multiplied.
    pub ff_off: Milli,
    /// The lowest integral.
    pub i_min: Milli,
    /// The highest integral, not below the lowest.
    pub i_max: Milli,
    /// The lowest output. It is 0 to 100 for class fan.
    pub out_min: Milli,
    /// The highest output, not below the lowest. It is 0 to 100 for class fan.
    pub out_max: Milli,
    /// How far the output may fall in a second, at most 0. With 0 it may fall at once.
    pub slew_neg: Milli,
    /// How far the output may rise in a second, at least 0. With 0 it may rise at once.
    pub slew_pos: Milli,
}

/// A row of a stepwise controller: the output from a reading on.
#[derive(Clone, Copy, Debug, PartialEq, Eq)]
pub struct StepRow {
    /// The least reading of the row, within 1,000,000 units of 0.
    pub reading: Milli,
    /// The output, within 1,000,000 units of 0.
    pub output: Milli,
}

/// The setting of a stepwise controller.
#[derive(Clone, Copy, Debug, PartialEq, Eq)]
pub struct StepSetting {
    /// The rows, of which the first `count` are used. They need not be in order.
    pub rows: [StepRow; 20],
    /// How many rows are used, 1 to 20.
    pub count: u8,
    /// How far the reading may rise and give the same output, 0 to 1,000,000 units.
    pub positive: Milli,
    /// How far the reading may fall and give the same output, 0 to 1,000,000 units.
    pub negative: Milli,
}

/// The setting of a controller.
#[derive(Clone, Copy, Debug, PartialEq, Eq)]
pub enum Setting {
    /// Of a PID controller.
    Pid(PidSetting),
    /// Of a stepwise controller.
    Stepwise(StepSetting),
}

impl Setting {
    /// The kind of controller that the setting is for. Takes no memory.
    pub fn kind(&self) -> Kind
        ensures { result ≡ kind_of self.now }
    {
        match self {
            Setting::Pid(_) => Kind::Pid,
            Setting::Stepwise(_) => Kind::Stepwise,
        }
    }
}
