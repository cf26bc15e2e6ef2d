ghost use Rattle.std.specs.Prelude.{◌≡◌};
ghost use Rattle.serde_json.specs.View.{view};
ghost use Rattle.cfg_json.specs.Pids.{class_of, setpoint_of, gains_of, spans_of, slews_of, leaves_percent, in_order, put_together, pid_of};

use crate::ConfigFault;
use crate::values::{MOST_UNITS, micro_or_none, milli_or_none, milli_within, required};
use bmc_base::Milli;
use ctl_face::{PidClass, PidSetting};
use serde_json::Value;

// The coefficients of a PID controller, in millionths.
#[derive(Clone, Copy)]
struct Gains {
    p: i64,
    i: i64,
    d: i64,
    ff_gain: i64,
}

// What is added to the setpoint of a PID controller, and the limits of its integral and of its output.
#[derive(Clone, Copy)]
struct Spans {
    ff_off: Milli,
    i_min: Milli,
    i_max: Milli,
    out_min: Milli,
    out_max: Milli,
}

// How far the output of a PID controller may fall and rise in a second.
#[derive(Clone, Copy)]
struct Slews {
    neg: Milli,
    pos: Milli,
}

// All thousandths of the fans' range: 100 percent.
const FULL: i64 = 100_000;

// Reads what a PID controller controls.
pub(crate) fn read_class(text: &str) -> Result<PidClass, ConfigFault>
    ensures { result ≡ class_of text.now }
{
    match text {
        "fan" => Ok(PidClass::Fan),
        "temp" => Ok(PidClass::Temp),
        "margin" => Ok(PidClass::Margin),
        _ => Err(ConfigFault::OutOfRange),
    }
}

// Reads the setting of a PID controller of this class.
pub(crate) fn read_pid_setting(class: PidClass, members: &Value) -> Result<PidSetting, ConfigFault>
    ensures { result ≡ pid_of class (view members.now) }
{
    let setpoint = read_setpoint(class, members)?;
    let gains = read_gains(members)?;
    let spans = read_spans(members)?;
    let slews = read_slews(members)?;
    check_order(put_together(class, setpoint, gains, spans, slews))
}

// Reads the reading that is wanted. For class fan it is that of a zone, so the member is not read.
fn read_setpoint(class: PidClass, members: &Value) -> Result<Milli, ConfigFault>
    ensures { result ≡ setpoint_of class (view members.now) }
{
    match class {
        PidClass::Fan => Ok(Milli(0)),
        PidClass::Temp | PidClass::Margin => {
            milli_within(required(members, "SetPoint")?, -MOST_UNITS, MOST_UNITS)
        }
    }
}

// Reads the coefficients.
fn read_gains(members: &Value) -> Result<Gains, ConfigFault>
    ensures { result ≡ gains_of (view members.now) }
{
    Ok(Gains {
        p: micro_or_none(members, "PCoefficient")?,
        i: micro_or_none(members, "ICoefficient")?,
        d: micro_or_none(members, "DCoefficient")?,
        ff_gain: micro_or_none(members, "FFGainCoefficient")?,
    })
}

// Reads what is added to the setpoint, and the limits of the integral and of the output.
fn read_spans(members: &Value) -> Result<Spans, ConfigFault>
    ensures { result ≡ spans_of (view members.now) }
{
    Ok(Spans {
        ff_off: milli_or_none(members, "FFOffCoefficient", -MOST_UNITS, MOST_UNITS)?,
        i_min: milli_or_none(members, "ILimitMin", -MOST_UNITS, MOST_UNITS)?,
        i_max: milli_or_none(members, "ILimitMax", -MOST_UNITS, MOST_UNITS)?,
        out_min: milli_within(required(members, "OutLimitMin")?, -MOST_UNITS, MOST_UNITS)?,
        out_max: milli_within(required(members, "OutLimitMax")?, -MOST_UNITS, MOST_UNITS)?,
    })
}

// Reads how far the output may fall and rise in a second.
fn read_slews(members: &Value) -> Result<Slews, ConfigFault>
    ensures { result ≡ slews_of (view members.now) }
{
    Ok(Slews {
        neg: milli_or_none(members, "SlewNeg", -MOST_UNITS, 0)?,
        pos: milli_or_none(members, "SlewPos", 0, MOST_UNITS)?,
    })
}

// Puts the parts of a setting together.
fn put_together(
    class: PidClass,
    setpoint: Milli,
    gains: Gains,
    spans: Spans,
    slews: Slews,
) -> PidSetting
    ensures { result ≡ put_together class setpoint gains spans slews }
{
    PidSetting {
        class,
        setpoint,
        p: gains.p,
        i: gains.i,
        d: gains.d,
        ff_gain: gains.ff_gain,
        ff_off: spans.ff_off,
        i_min: spans.i_min,
        i_max: spans.i_max,
        out_min: spans.out_min,
        out_max: spans.out_max,
        slew_neg: slews.neg,
        slew_pos: slews.pos,
    }
}

// Whether outputs between these are no percent. Those of a fan have to be.
fn leaves_percent(class: PidClass, low: Milli, high: Milli) -> bool
    ensures { result ≡ leaves_percent class low high }
{
    match class {
        PidClass::Fan => low.0 < 0 || FULL < high.0,
        PidClass::Temp | PidClass::Margin => false,
    }
}

// Refuses a setting of which a least number is above its greatest one, or whose outputs are no percent and have to be.
fn check_order(setting: PidSetting) -> Result<PidSetting, ConfigFault>
    ensures { result ≡ in_order setting }
{
    if setting.i_max.0 < setting.i_min.0 || setting.out_max.0 < setting.out_min.0 {
        return Err(ConfigFault::OutOfRange);
    }
    if leaves_percent(setting.class, setting.out_min, setting.out_max) {
        Err(ConfigFault::OutOfRange)
    } else {
        Ok(setting)
    }
}
