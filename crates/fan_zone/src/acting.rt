ghost use Rattle.std.specs.Prelude.{◌≡◌};
ghost use Rattle.fan_zone.specs.Live.{acts};

use cfg_json::{Item, ItemPart};

/// Whether an item acts in zones: it is a zone, a fan or a controller.
pub fn acts(item: &Item) -> bool
    ensures { result ≡ acts item.now.part }
{
    match &item.part {
        ItemPart::Zone(_) | ItemPart::Fan | ItemPart::Control(_) => true,
        ItemPart::Sensor(_) | ItemPart::Mux(_) | ItemPart::Passive => false,
    }
}
