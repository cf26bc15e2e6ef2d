ghost use Rattle.std.specs.Prelude.{◌≡◌};
ghost use Rattle.serde_json.specs.View.{view, number_view};
ghost use Rattle.cfg_json.specs.Channels.{to_bus, number_channel, moving_channel, channel_of, mux_of};
ghost use Rattle.cfg_json.specs.Readings.{Gives};

use crate::values::list;
use crate::{ConfigFault, MuxPart, Templates};
use bmc_base::Bytes;
use serde_json::{Number, Value};
use std::alloc::Global;
use tmpl::{Template, fixed_number};

// How many channels a multiplexer has at the most.
const MOST_CHANNELS: usize = 16;

// A channel of a multiplexer.
#[derive(Drop)]
enum Channel {
    // To this bus.
    Fixed(u8),
    // To the bus as which this is rendered for the place and the record of a FRU.
    Moving(Template),
}

// Reads the channels of a multiplexer.
pub(crate) fn read_mux(alloc: Global, value: &Value) -> Result<MuxPart, ConfigFault>
    ensures { Gives result (mux_of (view value.now)) }
{
    let items = list(value, 1, MOST_CHANNELS)?;
    let mut fixed = Vec::with_capacity(alloc, items.len())?;
    let mut moving = Templates::new(alloc);
    for item in items {
        match read_channel(alloc, item)? {
            Channel::Fixed(bus) => fixed.push(bus)?,
            Channel::Moving(template) => moving.push(alloc, template)?,
        }
    }
    Ok(MuxPart {
        fixed: Bytes::from(fixed),
        moving,
    })
}

// Reads a channel.
fn read_channel(alloc: Global, value: &Value) -> Result<Channel, ConfigFault>
    ensures { Gives result (channel_of (view value.now)) }
{
    match value {
        Value::Number(number) => read_number(number),
        Value::String(text) => match fixed_number(text.as_str()) {
            Some(number) => to_bus(u64::from(number)),
            None => read_moving(alloc, text.as_str()),
        },
        _ => Err(ConfigFault::WrongKind),
    }
}

// The channel to the bus with this number.
fn to_bus(number: u64) -> Result<Channel, ConfigFault>
    ensures { result ≡ to_bus number }
{
    match u8::try_from(number) {
        Ok(bus) => Ok(Channel::Fixed(bus)),
        Err(_) => Err(ConfigFault::OutOfRange),
    }
}

// Reads a channel that is a number.
fn read_number(number: &Number) -> Result<Channel, ConfigFault>
    ensures { result ≡ number_channel (number_view number.now) }
{
    if number.is_f64() {
        return Err(ConfigFault::WrongKind);
    }
    match number.as_u64() {
        Some(number) => to_bus(number),
        None => Err(ConfigFault::OutOfRange),
    }
}

// Reads a channel that moves with the place.
fn read_moving(alloc: Global, text: &str) -> Result<Channel, ConfigFault>
    ensures { Gives result (moving_channel text.now) }
{
    let template = Template::parse(alloc, text)?;
    if template.is_single() && !template.uses_index() {
        Ok(Channel::Moving(template))
    } else {
        Err(ConfigFault::TemplateSyntax)
    }
}
