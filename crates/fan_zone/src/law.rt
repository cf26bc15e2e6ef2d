ghost use Rattle.fan_zone.specs.Laws.{SettingsStay, ValuesFit};

/// Each controller is loaded with its setting from `set` on, also after ticks. So where no controller changes its setting, those
/// that stay are as the next `set` asks.
pub fn settings_stay()
    ensures { SettingsStay }
{}

/// What a sensor shows of readings in their range is the input of a sample as it is. So the range that samples have cuts nothing off.
pub fn values_fit()
    ensures { ValuesFit }
{}
