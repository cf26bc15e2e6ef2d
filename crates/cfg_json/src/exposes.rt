ghost use Rattle.std.specs.Prelude.{◌≡◌, map, option_map};
ghost use Rattle.std.specs.List.{list_any};
ghost use Rattle.serde_json.specs.View.{view};
ghost use Rattle.cfg_json.specs.Exposes.{zone_of, body_of, expose_of, exposes_of, has_moving};
ghost use Rattle.cfg_json.specs.Values.{each};
ghost use Rattle.cfg_json.specs.Readings.{Gives};

use crate::channels::read_mux;
use crate::controls::{read_pid, read_stepwise};
use crate::sensors::read_sensor;
use crate::template_names::read_name;
use crate::values::{MOST_UNITS, list, milli_within, required, short_text};
use crate::{Body, Boxed, ConfigFault, Expose, Exposes, ZoneSetting};
use bmc_base::Name;
use serde_json::Value;
use std::alloc::Global;

// How many exposes a configuration has at the most.
const MOST_EXPOSES: usize = 256;

// Reads the exposes of a document, of which there may be none.
pub(crate) fn read_exposes(alloc: Global, value: Option<&Value>) -> Result<Exposes, ConfigFault>
    ensures { Gives result (exposes_of (option_map (λ exposes. view exposes.now) value.entry)) }
{
    match value {
        Some(value) => read_list(alloc, list(value, 0, MOST_EXPOSES)?),
        None => Ok(Exposes::new(alloc)?),
    }
}

// Reads each element as an expose.
fn read_list(alloc: Global, items: &[Value]) -> Result<Exposes, ConfigFault>
    ensures { Gives result (each expose_of (map view items.now)) }
{
    let mut exposes = Exposes::new(alloc)?;
    for item in items {
        exposes.push(alloc, read_expose(alloc, item)?)?;
    }
    Ok(exposes)
}

// Reads an expose.
fn read_expose(alloc: Global, value: &Value) -> Result<Expose, ConfigFault>
    ensures { Gives result (expose_of (view value.now)) }
{
    if !value.is_object() {
        return Err(ConfigFault::WrongKind);
    }
    let name = read_name(alloc, required(value, "Name")?)?;
    let kind = short_text(required(value, "Type")?)?;
    let body = read_body(alloc, value, &kind)?;
    Ok(Expose { name, kind, body })
}

// Reads what the type of an expose asks for.
#[tactic(auto, unfolding(crate::specs::Exposes::body_of))]
fn read_body(alloc: Global, members: &Value, kind: &Name) -> Result<Body, ConfigFault>
    ensures { Gives result (body_of (view members.now) kind.now) }
{
    match kind.as_str() {
        "Sensor" => Ok(Body::Sensor(read_sensor(alloc, members)?)),
        "Fan" => Ok(Body::Fan),
        "Pid.Zone" => Ok(Body::Zone(read_zone(members)?)),
        "Pid" => {
            let control = read_pid(alloc, members)?;
            Ok(Body::Control(Boxed::new(alloc, control)?))
        }
        "Stepwise" => {
            let control = read_stepwise(alloc, members)?;
            Ok(Body::Control(Boxed::new(alloc, control)?))
        }
        "Mux" => Ok(Body::Mux(read_mux(alloc, required(members, "Channels")?)?)),
        _ => Ok(Body::Passive),
    }
}

// Reads the setting of a zone.
fn read_zone(members: &Value) -> Result<ZoneSetting, ConfigFault>
    ensures { result ≡ zone_of (view members.now) }
{
    let min_thermal = milli_within(
        required(members, "MinThermalOutput")?,
        -MOST_UNITS,
        MOST_UNITS,
    )?;
    let failsafe = milli_within(required(members, "FailSafePercent")?, 0, 100)?;
    Ok(ZoneSetting {
        min_thermal,
        failsafe,
    })
}

// Whether a channel of some exposes moves with the place.
pub(crate) fn have_moving(exposes: &[Expose]) -> bool
    ensures { result ≡ list_any has_moving exposes.now }
{
    exposes.iter().any(|expose| has_moving(expose))
}

// Whether a channel of an expose moves with the place.
fn has_moving(expose: &Expose) -> bool
    ensures { result ≡ has_moving expose.now }
{
    match &expose.body {
        Body::Mux(part) => !part.moving.as_slice().is_empty(),
        _ => false,
    }
}
