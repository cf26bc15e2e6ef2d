ghost use Rattle.std.specs.Prelude.{◌≡◌};
ghost use Rattle.inventory.specs.Items.{has_control, is_control};

use crate::BoardKey;
use cfg_json::{Item, ItemPart};

/// A board with those of its items that may be live, in the order of the exposes.
#[derive(Drop)]
pub struct Shown {
    /// Which board it is.
    pub key: BoardKey,
    /// The items, of which there are some.
    pub items: Vec<Item>,
    /// Whether one of them is a controller.
    pub controls: bool,
    ghost told: { controls ≡ has_control items.items },
}

// Whether an item is a controller.
fn is_control(item: &Item) -> bool
    ensures { result ≡ is_control item.now.part }
{
    match &item.part {
        ItemPart::Control(_) => true,
        ItemPart::Sensor(_) | ItemPart::Zone(_) | ItemPart::Fan => false,
        ItemPart::Mux(_) | ItemPart::Passive => false,
    }
}

// Whether one of some items is a controller.
fn has_control(items: &[Item]) -> bool
    ensures { result ≡ has_control items.now }
{
    items.iter().any(|item| is_control(item))
}

impl Shown {
    /// Returns a board with its items.
    pub(crate) fn new(key: BoardKey, items: Vec<Item>) -> Shown
        ensures key { result.key ≡ key }
        ensures items { result.items.items ≡ items.items }
    {
        let controls = has_control(&items);
        Shown {
            key,
            items,
            controls,
        }
    }
}
