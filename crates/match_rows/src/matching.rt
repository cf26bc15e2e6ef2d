ghost use Rattle.std.specs.Prelude.{◌≡◌, ◌<◌, ◌≤◌, ◌++◌, [], if◌then◌else◌, length, map, option_to_list, IfOk, IfSome, OnOk, OnErr};
ghost use Rattle.bmc_base.specs.Places.{last_bus};
ghost use Rattle.bmc_base.specs.Steps.{with_matches};
ghost use Rattle.cfg_json.specs.Configs.{moving_in, moving_of};
ghost use Rattle.match_rows.specs.Matching.{pattern_hits, hits_of, channels_of, any_matches, buses_at, channel_to, entry_of, pattern_count, IsMatchedWithin};

use bmc_base::{Ledger, OutOfMemory, Place, Steps};
use cfg_json::{Body, Config, Shelf};
use fru_record::FruRecord;
use probe_lang::{Channel, Channels, Entry, Hit, Hits};
use std::alloc::Global;
use tmpl::{Spot, Template};

// The greatest bus.
const LAST_BUS: u32 = 255;

// Appends the channel of a configuration to a bus, if there is one.
fn push_channel(
    alloc: Global,
    number: u32,
    bus: Option<u32>,
    channels: &mut Channels,
) -> Result<(), OutOfMemory>
    requires { IfSome bus (λ bus. bus ≤ last_bus) }
    ensures { OnOk result (channels.new ≡ channels.old ++ map (channel_to number) (option_to_list bus)) }
{
    if let Some(bus) = bus {
        let channel = Channel {
            config: number,
            bus: bus as u8,
        };
        channels.push(alloc, channel)?;
    }
    Ok(())
}

// Appends the channels to the buses that templates give at a spot.
fn append_buses(
    alloc: Global,
    spot: &Spot<'_>,
    number: u32,
    templates: &[Template],
    channels: &mut Channels,
) -> Result<(), OutOfMemory>
    ensures { OnOk result (channels.new ≡ channels.old ++ map (channel_to number) (buses_at spot.now templates.now)) }
{
    for template in templates {
        let bus = template.render_number(spot, LAST_BUS);
        push_channel(alloc, number, bus, channels)?;
    }
    Ok(())
}

// Appends the channels of an expose that move with the place.
fn append_moving(
    alloc: Global,
    spot: &Spot<'_>,
    number: u32,
    body: &Body,
    channels: &mut Channels,
) -> Result<(), OutOfMemory>
    ensures { OnOk result (channels.new ≡ channels.old ++ map (channel_to number) (buses_at spot.now (moving_in body.now))) }
{
    match body {
        Body::Mux(part) => append_buses(alloc, spot, number, part.moving.as_slice(), channels),
        Body::Sensor(_) | Body::Fan | Body::Zone(_) | Body::Control(_) | Body::Passive => Ok(()),
    }
}

// Appends the channels of a configuration that move with the place.
fn append_channels<L: Ledger>(
    alloc: Global,
    spot: &Spot<'_>,
    number: u32,
    config: &Config<L>,
    channels: &mut Channels,
) -> Result<(), OutOfMemory>
    ensures { OnOk result (channels.new ≡ channels.old ++ map (channel_to number) (buses_at spot.now (moving_of config.now))) }
{
    for expose in config.exposes() {
        append_moving(alloc, spot, number, &expose.body, channels)?;
    }
    Ok(())
}

// Appends the channels of a configuration that move with the place, where a pattern of it matches.
fn append_if<L: Ledger>(
    alloc: Global,
    is_match: bool,
    spot: &Spot<'_>,
    number: u32,
    config: &Config<L>,
    channels: &mut Channels,
) -> Result<(), OutOfMemory>
    ensures { OnOk result (channels.new ≡ channels.old
        ++ (if is_match then map (channel_to number) (buses_at spot.now (moving_of config.now)) else [])) }
{
    if is_match {
        append_channels(alloc, spot, number, config, channels)
    } else {
        Ok(())
    }
}

// Tests each pattern of a configuration once, appends the hits, and returns whether there is any.
fn append_hits<L: Ledger>(
    alloc: Global,
    place: Place,
    fru: &FruRecord,
    number: u32,
    config: &Config<L>,
    hits: &mut Hits,
    steps: &mut Steps<L>,
) -> Result<bool, OutOfMemory>
    ensures ok { OnOk result (hits.new ≡ hits.old ++ pattern_hits place fru.now number 0 config.now.patterns) }
    ensures any { IfOk result (λ is_match. is_match ≡ any_matches place fru.now config.now) }
    ensures counted { OnOk result (steps.new ≡ with_matches steps.old (length config.now.patterns)) }
    ensures limit { OnErr result (IsMatchedWithin steps.old steps.new (length config.now.patterns)) }
{
    let mut is_match = false;
    for (pattern_number, pattern) in config.patterns().iter().enumerate() {
        if pattern.matches(alloc, place, fru, steps)? {
            is_match = true;
            let hit = Hit {
                config: number,
                pattern: pattern_number as u32,
            };
            hits.push(alloc, hit)?;
        }
    }
    Ok(is_match)
}

// What matches a record: the hits, and the channels that move with its place.
#[derive(Drop)]
struct Found {
    hits: Hits,
    channels: Channels,
}

// Tests each pattern of the shelf once, and returns the hits and the channels.
fn find<L: Ledger>(
    alloc: Global,
    place: Place,
    fru: &FruRecord,
    shelf: &Shelf<L>,
    steps: &mut Steps<L>,
) -> Result<Found, OutOfMemory>
    ensures hits { IfOk result (λ found. found.hits ≡ hits_of shelf.now place fru.now) }
    ensures channels { IfOk result (λ found. found.channels ≡ channels_of shelf.now place fru.now) }
    ensures counted { OnOk result (steps.new ≡ with_matches steps.old (pattern_count shelf.now)) }
    ensures limit { OnErr result (IsMatchedWithin steps.old steps.new (pattern_count shelf.now)) }
{
    let spot = Spot {
        place: Some(place),
        fru: Some(fru),
        index: 0,
    };
    let mut hits = Hits::new(alloc);
    let mut channels = Channels::new(alloc);
    for number in 0..shelf.len() {
        let config = shelf.at(number).unwrap();
        let is_match = append_hits(alloc, place, fru, number as u32, config, &mut hits, steps)?;
        append_if(alloc, is_match, &spot, number as u32, config, &mut channels)?;
    }
    Ok(Found { hits, channels })
}

/// Makes the entry of a record at a place, with the patterns of the shelf that match it, and with the channels that
/// move with the place, of each configuration of which a pattern matches. It tests each pattern once; where memory is
/// wanting it may stop before the last.
pub fn make<L: Ledger>(
    alloc: Global,
    place: Place,
    fru: FruRecord,
    shelf: &Shelf<L>,
    steps: &mut Steps<L>,
) -> Result<Entry, OutOfMemory>
    ensures ok { IfOk result (λ entry. entry ≡ entry_of shelf.now place fru) }
    ensures counted { OnOk result (steps.new ≡ with_matches steps.old (pattern_count shelf.now)) }
    ensures limit { OnErr result (IsMatchedWithin steps.old steps.new (pattern_count shelf.now)) }
{
    let Found { hits, channels } = find(alloc, place, &fru, shelf, steps)?;
    Ok(Entry {
        place,
        fru,
        hits,
        channels,
    })
}
