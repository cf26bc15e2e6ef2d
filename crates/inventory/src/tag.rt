ghost use Rattle.std.specs.Prelude.{◌≡◌};
ghost use Rattle.inventory.specs.Bearers.{member_tag, name_tag, role_of, tag_of};

use crate::Family;
use bmc_base::Name;
use cfg_json::{Item, ItemPart};
use std::hash::{Hash, Hasher};

/// As what an item is noted.
#[derive(Clone, Copy, PartialEq, Eq)]
pub(crate) enum Role {
    /// As a sensor, which bears its name.
    Sensor,
    /// As a zone, which bears its name.
    Zone,
    /// As a fan, which bears its name.
    Fan,
    /// As a controller, which is in a zone.
    Member,
}

/// Under what items are noted: a name that they bear in their family, or the name of the zone that they are in. The name stands
/// first, so that a tag is moved in pieces that are aligned.
#[derive(Drop, PartialEq, Eq)]
pub(crate) struct Tag {
    pub(crate) name: Name,
    pub(crate) role: Role,
}

// A tag is hashed by its name alone: at most four have the same.
impl Hash for Tag {
    ghost use Rattle.std.specs.Cmp.Rules.{hashing};
    ghost use Rattle.std.specs.Prelude.{◌∷◌, []};
    ghost use Rattle.std.proofs.Common.{rules};

    ghost hash_input = { λ tag. tag.name ∷ [] };

    ghost respects_eq = { Prim.search (hashing, rules) };

    fn hash<H: Hasher>(&self, state: &mut H) {
        state.write(self.name.as_str().as_bytes());
    }
}

impl Role {
    // The role in which the items of a family bear their names.
    fn of(family: Family) -> Role
        ensures { result ≡ role_of family }
    {
        match family {
            Family::Sensor => Role::Sensor,
            Family::Zone => Role::Zone,
            Family::Fan => Role::Fan,
        }
    }
}

/// Returns what the items of a family are noted under that have a name.
pub(crate) fn name_tag(family: Family, name: &Name) -> Tag
    ensures { result ≡ name_tag family name.now }
{
    Tag {
        role: Role::of(family),
        name: name.copied(),
    }
}

/// Returns what the items are noted under that are in the zone of a name.
pub(crate) fn member_tag(zone: &Name) -> Tag
    ensures { result ≡ member_tag zone.now }
{
    Tag {
        role: Role::Member,
        name: zone.copied(),
    }
}

/// Returns what an item is noted under, if it is under something.
pub(crate) fn tag_of(item: &Item) -> Option<Tag>
    ensures { result ≡ tag_of item.now }
{
    match &item.part {
        ItemPart::Sensor(_) => Some(name_tag(Family::Sensor, &item.name)),
        ItemPart::Fan => Some(name_tag(Family::Fan, &item.name)),
        ItemPart::Zone(_) => Some(name_tag(Family::Zone, &item.name)),
        ItemPart::Control(control) => Some(member_tag(&control.get().zone)),
        ItemPart::Mux(_) | ItemPart::Passive => None,
    }
}
