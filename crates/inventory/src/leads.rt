ghost use Rattle.std.specs.Prelude.{◌≡◌, ◌++◌, ◌∷◌, ◌<◌, [], length, slice_get, Some, filter_map, option_map, option_to_list, not, ◌&&◌, OnOk};
ghost use Rattle.std.specs.Prelude.{if◌then◌else◌, is_some, List, Option};
ghost use Rattle.std.specs.List.{list_any};
ghost use Rattle.std.specs.List.Sorted.{IsStrictlySortedBy};
ghost use Rattle.std.specs.Option.{option_or};
ghost use Rattle.indexmap.specs.IndexMap.{keys};
ghost use Rattle.cfg_json.specs.declared.item.ItemId.{ItemId};
ghost use Rattle.inventory.specs.Bearers.{ids_in, ids_or_none, ids_over, is_empty, is_id, member_tag, name_tag, touched};
ghost use Rattle.inventory.specs.Follows.{item_of};
ghost use Rattle.inventory.specs.Items.{id_eq};
ghost use Rattle.inventory.specs.Leads.{compared, is_held, AreFirst, AreInOrder, AreTold, IsLead, ListsMore};
ghost use Rattle.inventory.specs.Orders.{id_cmp};
ghost use Rattle.inventory.specs.Shown.{items_of, AreShown};
ghost use Rattle.inventory.specs.declared.family.Family.TheVariants as families;
ghost use Rattle.inventory.specs.declared.tag.Tag.{Tag};

use crate::ids::{Ids, add_id, is_same};
use crate::shown::Shown;
use crate::shown_boards::item_at;
use crate::tag::{Role, member_tag, name_tag};
use crate::tags::{Notes, Tags, kept_for, noted_for};
use crate::{Family, ItemList};
use bmc_base::{Name, OutOfMemory};
use cfg_json::{Item, ItemId};
use std::alloc::Global;

/// The ids of the live items that go, and of those that come.
#[derive(Drop)]
pub(crate) struct Leads {
    pub(crate) gone: Vec<ItemId>,
    pub(crate) new: Vec<ItemId>,
}

// Puts an id among others, if there is one and it is not the other.
fn add_unless(
    ids: &mut Vec<ItemId>,
    id: Option<ItemId>,
    other: Option<ItemId>,
) -> Result<(), OutOfMemory>
    ensures { OnOk result (ListsMore ids.old.items ids.new.items (λ each. is_id each id && not (is_id each other))) }
{
    let Some(id) = id else {
        return Ok(());
    };
    if is_same(&id, other) {
        return Ok(());
    }
    ids.reserve(1)?;
    add_id(ids, id);
    Ok(())
}

// Puts those ids in a list that are not among others, which ascend.
fn add_less(
    list: &mut Vec<ItemId>,
    ids: Option<&Ids>,
    others: Option<&Ids>,
) -> Result<(), OutOfMemory>
    ensures { IsStrictlySortedBy id_cmp (ids_or_none others.entry) → OnOk result (ListsMore list.old.items list.new.items
        (λ each. list_any (id_eq each) (ids_or_none ids.entry) && not (list_any (id_eq each) (ids_or_none others.entry)))) }
{
    match ids {
        Some(ids) => ids.list_less(others, list),
        None => Ok(()),
    }
}

// The first ids for a tag, that which is kept and that which is noted.
#[derive(Clone, Copy)]
struct Lead {
    before: Option<ItemId>,
    after: Option<ItemId>,
}

impl Lead {
    // Whether there is a first id before and after.
    fn stays(&self) -> bool
        ensures { result ≡ (is_some self.now.before && is_some self.now.after) }
    {
        self.before.is_some() && self.after.is_some()
    }
}

// Returns the first id with this number, if there is one.
fn first_at(firsts: &[Option<ItemId>], number: usize) -> Option<ItemId>
    ensures { (first : Option ItemId) → slice_get firsts.now number ≡ Some first → result ≡ first }
{
    match firsts.get(number) {
        Some(first) => *first,
        None => None,
    }
}

// Returns the first ids for the tag with this number among those that are noted, which takes no look-up.
fn lead_at(notes: &Notes, number: usize) -> Lead
    requires { number < length notes.now.over.entries }
    ensures { (tag : Tag) → slice_get (keys notes.now.over) number ≡ Some tag → (tags : List (Tag × List ItemId)) → AreFirst notes.now tags
        → IsLead result (ids_in tags tag) (ids_over notes.now.over.entries tags tag) }
{
    let before = first_at(&notes.firsts, number);
    match notes.over.get_index(number) {
        Some((_, ids)) => Lead {
            before,
            after: ids.first(),
        },
        None => unreachable!(),
    }
}

// The ids, where they are live.
fn ids_if(live: bool, ids: Option<&Ids>) -> Option<&Ids>
    ensures { ids_or_none result ≡ (if live then ids_or_none ids.entry else []) }
{
    if live { ids } else { None }
}

// Whether there are ids.
fn are_some(ids: Option<&Ids>) -> bool
    ensures { result ≡ not (is_empty (ids_or_none ids.entry)) }
{
    match ids {
        Some(ids) => !ids.is_empty(),
        None => false,
    }
}

impl Leads {
    /// Returns the ids of no items.
    pub(crate) fn none(alloc: Global) -> Leads
        ensures gone { result.gone.items ≡ [] }
        ensures new { result.new.items ≡ [] }
    {
        Leads {
            gone: Vec::new(alloc),
            new: Vec::new(alloc),
        }
    }

    // Tells the first ids for a name.
    fn add_lead(&mut self, lead: Lead) -> Result<(), OutOfMemory>
        ensures gone { OnOk result (ListsMore self.entry.now.gone.items self.exit.now.gone.items
            (λ each. is_id each lead.before && not (is_id each lead.after))) }
        ensures new { OnOk result (ListsMore self.entry.now.new.items self.exit.now.new.items
            (λ each. is_id each lead.after && not (is_id each lead.before))) }
    {
        add_unless(&mut self.gone, lead.before, lead.after)?;
        add_unless(&mut self.new, lead.after, lead.before)?;
        Ok(())
    }

    // Tells the controllers in a zone, whose name is held before or is not, and after.
    fn add_members(
        &mut self,
        notes: &Notes,
        tags: &Tags,
        zone: &Name,
        before: bool,
        after: bool,
    ) -> Result<(), OutOfMemory>
        ensures { let here = ids_in tags.now.entries in let there = ids_over notes.now.over.entries tags.now.entries in
            AreInOrder notes.now tags.now.entries → before ≡ is_held here zone.now → after ≡ is_held there zone.now
            → OnOk result (AreTold here there (member_tag zone.now ∷ []) self.entry.now self.exit.now) }
    {
        let tag = member_tag(zone);
        let here = ids_if(before, kept_for(tags, &tag));
        let there = ids_if(after, noted_for(&notes.over, tags, &tag));
        add_less(&mut self.gone, here, there)?;
        add_less(&mut self.new, there, here)?;
        Ok(())
    }

    // Tells the first ids for the name of a zone, and the controllers in the zone where the name becomes held or free.
    fn add_zone(
        &mut self,
        notes: &Notes,
        tags: &Tags,
        zone: &Name,
        lead: Lead,
    ) -> Result<(), OutOfMemory>
        ensures { let here = ids_in tags.now.entries in let there = ids_over notes.now.over.entries tags.now.entries in
            let tag = name_tag families.Zone zone.now in AreInOrder notes.now tags.now.entries → IsLead lead (here tag) (there tag)
            → OnOk result (AreTold here there (compared here there tag) self.entry.now self.exit.now) }
    {
        self.add_lead(lead)?;
        if lead.stays() {
            return Ok(());
        }
        self.add_members(
            notes,
            tags,
            zone,
            lead.before.is_some(),
            lead.after.is_some(),
        )
    }

    // Tells what changes under the tag with this number among those that are noted.
    fn add_tag(&mut self, notes: &Notes, tags: &Tags, number: usize) -> Result<(), OutOfMemory>
        requires { number < length notes.now.over.entries }
        ensures { let here = ids_in tags.now.entries in let there = ids_over notes.now.over.entries tags.now.entries in
            AreInOrder notes.now tags.now.entries → (tag : Tag) → slice_get (keys notes.now.over) number ≡ Some tag
            → OnOk result (AreTold here there (compared here there tag) self.entry.now self.exit.now) }
    {
        let lead = lead_at(notes, number);
        let Some((tag, _)) = notes.over.get_index(number) else {
            unreachable!();
        };
        match tag.role {
            Role::Sensor | Role::Fan => self.add_lead(lead),
            Role::Zone => self.add_zone(notes, tags, &tag.name, lead),
            Role::Member => {
                let zone = name_tag(Family::Zone, &tag.name);
                let before = are_some(kept_for(tags, &zone));
                let after = are_some(noted_for(&notes.over, tags, &zone));
                self.add_members(notes, tags, &tag.name, before, after)
            }
        }
    }

    /// Compares the ids that are noted for each tag with those that are kept, and tells what changes.
    pub(crate) fn find(&mut self, notes: &Notes, tags: &Tags) -> Result<(), OutOfMemory>
        ensures { let here = ids_in tags.now.entries in let there = ids_over notes.now.over.entries tags.now.entries in
            AreInOrder notes.now tags.now.entries
            → OnOk result (AreTold here there (touched (keys notes.now.over)) self.entry.now self.exit.now) }
    {
        for i in 0..notes.over.len() {
            self.add_tag(notes, tags, i)?;
        }
        Ok(())
    }
}

// Borrows the item with an id, which is in the first boards or else in the others.
fn item_in<'b>(boards: &'b [Shown], others: &'b [Shown], id: &ItemId) -> Option<&'b Item>
    ensures { AreShown boards.now → AreShown others.now → option_map (λ item. item.now) result
        ≡ option_or (item_of (items_of boards.now) id.now) (item_of (items_of others.now) id.now) }
{
    match item_at(boards, id) {
        Some(item) => Some(item),
        None => item_at(others, id),
    }
}

// Appends a copy of an item, if there is one.
fn copy_item(alloc: Global, list: &mut ItemList, item: Option<&Item>) -> Result<(), OutOfMemory>
    ensures { OnOk result (list.new ≡ list.old ++ option_to_list (option_map (λ item. item.now) item.entry)) }
{
    if let Some(item) = item {
        list.push(alloc, item.copied()?)?;
    }
    Ok(())
}

/// Appends copies of the items with these ids, which are in the first boards or else in the others.
pub(crate) fn append_copies(
    alloc: Global,
    list: &mut ItemList,
    ids: &[ItemId],
    boards: &[Shown],
    others: &[Shown],
) -> Result<(), OutOfMemory>
    ensures { AreShown boards.now → AreShown others.now → OnOk result (list.new ≡ list.old
        ++ filter_map (λ id. option_or (item_of (items_of boards.now) id) (item_of (items_of others.now) id)) ids.now) }
{
    for id in ids {
        copy_item(alloc, list, item_in(boards, others, id))?;
    }
    Ok(())
}
