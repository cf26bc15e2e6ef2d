ghost use Rattle.std.specs.Prelude.{◌≡◌, ◌++◌, filter_map, option_map, option_copied, option_to_list, Some, IfOk, OnOk};
ghost use Rattle.std.specs.List.{All};
ghost use Rattle.bmc_base.specs.Places.{last_bus};
ghost use Rattle.tmpl.specs.Rendering.{fields_of, rendered_number};
ghost use Rattle.cfg_json.specs.Configs.{IsValidExpose};
ghost use Rattle.cfg_json.specs.declared.expose.Body.TheVariants as bodies;
ghost use Rattle.inventory.specs.Items.{control_at, mux_at, names_at, number_at, part_of, sensor_at};
ghost use Rattle.inventory.specs.Items.{board_fields, entry_fields, exposes_of, items, rendered_item, rendered_items};
ghost use Rattle.inventory.specs.Naming.{may_be_live, named_among, named_item};

use crate::configs::config_at;
use crate::{Board, Moment};
use bmc_base::{Bytes, Ledger, OutOfMemory};
use cfg_json::{
    Body, Boxed, Config, ControlItem, ControlPart, Expose, Item, ItemId, ItemPart, MuxItem,
    MuxPart, Names, SensorItem, SensorPart, Shared, Shelf,
};
use fru_record::FruRecord;
use std::alloc::Global;
use tmpl::{Rendered, Spot, Template};

// The greatest bus, and the greatest address.
const LAST_BUS: u8 = 255;

const LAST_ADDRESS: u8 = 127;

// Returns the number that a template gives at a spot, if there is a template and the number is at most so many.
fn render_number(template: Option<&Template>, spot: &Spot<'_>, most: u8) -> Option<u8>
    ensures { result ≡ number_at spot.now.place (fields_of spot.now.fru) spot.now.index most
        (option_map (λ template. template.now) template.entry) }
{
    let number = template?.render_number(spot, u32::from(most))?;
    Some(number as u8)
}

// Returns the buses that templates give at a spot; one that gives none is left out.
fn render_buses(
    alloc: Global,
    templates: &[Template],
    spot: &Spot<'_>,
) -> Result<Bytes, OutOfMemory>
    ensures { IfOk result (λ buses. buses ≡ filter_map
        (λ template. rendered_number spot.now.place (fields_of spot.now.fru) spot.now.index template last_bus) templates.now) }
{
    let mut buses = Vec::new(alloc);
    for template in templates {
        if let Some(bus) = render_number(Some(template), spot, LAST_BUS) {
            buses.push(bus)?;
        }
    }
    Ok(Bytes::from(buses))
}

// Renders a multiplexer at a spot.
fn render_mux(alloc: Global, part: &MuxPart, spot: &Spot<'_>) -> Result<MuxItem, OutOfMemory>
    ensures { IfOk result (λ mux. mux ≡ mux_at spot.now.place (fields_of spot.now.fru) spot.now.index part.now) }
{
    Ok(MuxItem {
        fixed: Bytes::copy(alloc, part.fixed.as_slice())?,
        moving: render_buses(alloc, part.moving.as_slice(), spot)?,
    })
}

// Borrows the template of a number, if there is one.
fn template_in(number: &Option<Boxed<Template>>) -> Option<&Template>
    ensures { option_copied result ≡ number.now }
{
    match number {
        Some(template) => Some(template.get()),
        None => None,
    }
}

// Renders a sensor at a spot. It shares the setting of its expose.
fn render_sensor(part: &SensorPart, spot: &Spot<'_>) -> Result<SensorItem, OutOfMemory>
    ensures { IfOk result (λ sensor. sensor ≡ sensor_at spot.now.place (fields_of spot.now.fru) spot.now.index part.now) }
{
    Ok(SensorItem {
        bus: render_number(template_in(&part.bus), spot, LAST_BUS),
        address: render_number(template_in(&part.address), spot, LAST_ADDRESS),
        setting: part.setting.shared()?,
    })
}

// Renders names at a spot. There are none where one of them has no rendering.
fn render_names(
    alloc: Global,
    templates: &[Template],
    spot: &Spot<'_>,
) -> Result<Option<Names>, OutOfMemory>
    ensures { IfOk result (λ names. names ≡ names_at spot.now.place (fields_of spot.now.fru) spot.now.index templates.now) }
{
    let mut names = Names::new(alloc);
    for template in templates {
        let Rendered::Given(name) = template.render(spot) else {
            return Ok(None);
        };
        names.push(alloc, name)?;
    }
    Ok(Some(names))
}

// Renders a controller at a spot. There is none where one of its names has no rendering.
fn render_control(
    alloc: Global,
    part: &ControlPart,
    spot: &Spot<'_>,
) -> Result<Option<ControlItem>, OutOfMemory>
    ensures { IfOk result (λ control. control ≡ control_at spot.now.place (fields_of spot.now.fru) spot.now.index part.now) }
{
    let Rendered::Given(zone) = part.zone.render(spot) else {
        return Ok(None);
    };
    let Some(inputs) = render_names(alloc, part.inputs.as_slice(), spot)? else {
        return Ok(None);
    };
    let Some(outputs) = render_names(alloc, part.outputs.as_slice(), spot)? else {
        return Ok(None);
    };
    Ok(Some(ControlItem {
        setting: part.setting,
        zone,
        inputs,
        outputs,
    }))
}

// Renders a controller at a spot into memory of its own. There is none where one of its names has no rendering. It is called and
// not inlined: a controller is large, and an expose that is none is not to make room for one.
#[inline(never)]
fn render_boxed_control(
    alloc: Global,
    part: &ControlPart,
    spot: &Spot<'_>,
) -> Result<Option<ItemPart>, OutOfMemory>
    ensures { IfOk result (λ item. item ≡ part_of spot.now.place (fields_of spot.now.fru) spot.now.index (bodies.Control part.now)) }
{
    match render_control(alloc, part, spot)? {
        Some(control) => Ok(Some(ItemPart::Control(Shared::new(alloc, control)?))),
        None => Ok(None),
    }
}

// Renders the body of an expose at a spot. There is nothing where a name that it asks for has no rendering.
fn render_part(alloc: Global, body: &Body, spot: &Spot<'_>) -> Result<Option<ItemPart>, OutOfMemory>
    ensures { IfOk result (λ part. part ≡ part_of spot.now.place (fields_of spot.now.fru) spot.now.index body.now) }
{
    match body {
        Body::Sensor(part) => Ok(Some(ItemPart::Sensor(render_sensor(part, spot)?))),
        Body::Fan => Ok(Some(ItemPart::Fan)),
        Body::Zone(setting) => Ok(Some(ItemPart::Zone(*setting))),
        Body::Control(part) => render_boxed_control(alloc, part.get(), spot),
        Body::Mux(part) => {
            let mux = Shared::new(alloc, render_mux(alloc, part, spot)?)?;
            Ok(Some(ItemPart::Mux(mux)))
        }
        Body::Passive => Ok(Some(ItemPart::Passive)),
    }
}

// Appends the item of an expose, with its position among those of its configuration, at a board with this record. There is none
// where its name, or a name that it asks for, has no rendering.
fn append_item(
    alloc: Global,
    items: &mut Vec<Item>,
    board: &Board,
    position: u32,
    expose: &Expose,
    fru: Option<&FruRecord>,
) -> Result<(), OutOfMemory>
    ensures { OnOk result (items.new.items ≡ items.old.items ++ option_to_list (rendered_item board.now (fields_of fru.entry) (position, expose.now))) }
{
    let spot = Spot {
        place: board.key.place,
        fru,
        index: board.index,
    };
    let Rendered::Given(name) = expose.name.render(&spot) else {
        return Ok(());
    };
    let Some(part) = render_part(alloc, &expose.body, &spot)? else {
        return Ok(());
    };
    let id = ItemId {
        config: board.key.config,
        place: board.key.place,
        expose: position,
    };
    // A push that can fail hands its item back, which costs copies of it.
    items.reserve(1)?;
    items.push_reserved(Item { id, name, part });
    Ok(())
}

// Returns a position as items have it. A configuration has at most 256 exposes, so each fits.
fn position_of(position: usize) -> Result<u32, OutOfMemory>
    ensures { IfOk result (λ number. number ≡ position) }
{
    u32::try_from(position).map_err(|_| OutOfMemory)
}

// Appends the items of these exposes at a board with this record.
pub(crate) fn append_items(
    alloc: Global,
    items: &mut Vec<Item>,
    board: &Board,
    exposes: &[Expose],
    fru: Option<&FruRecord>,
) -> Result<(), OutOfMemory>
    ensures { OnOk result (items.new.items ≡ items.old.items ++ rendered_items board.now (fields_of fru.entry) exposes.now) }
{
    for (position, expose) in exposes.iter().enumerate() {
        let number = position_of(position)?;
        append_item(alloc, items, board, number, expose, fru)?;
    }
    Ok(())
}

// Whether what a body is at a board may be live.
fn may_be_live(body: &Body) -> bool
    ensures { result ≡ may_be_live body.now }
{
    match body {
        Body::Sensor(_) | Body::Fan | Body::Zone(_) | Body::Control(_) => true,
        Body::Mux(_) | Body::Passive => false,
    }
}

// Appends the item of an expose as [`append_item`] does, if it may be live.
fn append_named_item(
    alloc: Global,
    items: &mut Vec<Item>,
    board: &Board,
    position: u32,
    expose: &Expose,
    fru: Option<&FruRecord>,
) -> Result<(), OutOfMemory>
    ensures { OnOk result (items.new.items ≡ items.old.items ++ option_to_list (named_item board.now (fields_of fru.entry) (position, expose.now))) }
{
    if may_be_live(&expose.body) {
        append_item(alloc, items, board, position, expose, fru)
    } else {
        Ok(())
    }
}

// Appends those items of these exposes at a board with this record that may be live. The others are not rendered.
pub(crate) fn append_named(
    alloc: Global,
    items: &mut Vec<Item>,
    board: &Board,
    exposes: &[Expose],
    fru: Option<&FruRecord>,
) -> Result<(), OutOfMemory>
    ensures { OnOk result (items.new.items ≡ items.old.items ++ named_among board.now (fields_of fru.entry) exposes.now) }
{
    for (position, expose) in exposes.iter().enumerate() {
        append_named_item(alloc, items, board, position_of(position)?, expose, fru)?;
    }
    Ok(())
}

// Borrows the exposes of a configuration, which are valid; there are none where no configuration has the number.
pub(crate) fn exposes_at<'s, L: Ledger>(
    shelf: &'s Shelf<L>,
    plus: Option<&'s Config<L>>,
    number: u32,
) -> &'s [Expose]
    ensures value { result.now ≡ exposes_of (shelf.now ++ option_to_list (option_map (λ config. config.now) plus.entry)) number }
    ensures valid { All IsValidExpose result.now }
{
    match config_at(shelf, plus, number as usize) {
        Some(config) => config.exposes(),
        None => &[],
    }
}

// Borrows the record at the place of a board, if there is one.
pub(crate) fn record_at<'m>(moment: &'m Moment<'_>, board: &Board) -> Option<&'m FruRecord>
    ensures { fields_of result ≡ board_fields (entry_fields moment.now.entries) board.now }
{
    moment.fru(board.key.place?)
}

/// Lists the items of boards at a moment, by board and then in the order of the exposes: each expose of which the name,
/// and every name that it asks for, has a rendering at the board. The shelf has the configurations; one more may be
/// accepted now, with their count for its number. A board of any other configuration has no items.
pub fn list_items<L: Ledger>(
    alloc: Global,
    shelf: &Shelf<L>,
    plus: Option<&Config<L>>,
    boards: &[Board],
    moment: &Moment<'_>,
) -> Result<Vec<Item>, OutOfMemory>
    ensures { let all = shelf.now ++ option_to_list (option_map (λ config. config.now) plus.entry) in
        IfOk result (λ list. list.items ≡ items all (entry_fields moment.now.entries) boards.now) }
{
    let mut items = Vec::new(alloc);
    for board in boards {
        let exposes = exposes_at(shelf, plus, board.key.config);
        append_items(alloc, &mut items, board, exposes, record_at(moment, board))?;
    }
    Ok(items)
}
