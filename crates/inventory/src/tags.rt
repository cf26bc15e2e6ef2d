ghost use Rattle.std.specs.Prelude.{◌≡◌, ◌+◌, ◌<◌, ◌≤◌, ◌∷◌, [], not, ◌&&◌, ◌||◌, Bool, length, slice_get, if◌then◌else◌, IfOk, OnOk};
ghost use Rattle.indexmap.specs.IndexMap.{spare};
ghost use Rattle.cfg_json.specs.declared.item.ItemId.{ItemId};
ghost use Rattle.inventory.specs.Bearers.{ids_in, ids_or_none, ids_over, is_bearer, noted_by, share_name, some_share, tag_eq, Lists};
ghost use Rattle.inventory.specs.Follows.{on};
ghost use Rattle.inventory.specs.Items.{id_eq};
ghost use Rattle.inventory.specs.Shown.{items_of, AreShown};
ghost use Rattle.inventory.specs.Stocks.{AreNoted};
ghost use Rattle.inventory.specs.declared.tag.Tag.{Tag};

use crate::BoardKey;
use crate::ids::Ids;
use crate::shown::Shown;
use crate::shown_boards::board_items;
use crate::tag::{Role, Tag, tag_of};
use bmc_base::OutOfMemory;
use cfg_json::{Item, ItemId};
use indexmap::IndexMap;
use indexmap::map::Entry;
use std::alloc::Global;

/// For each tag the ids of the items that are noted under it.
pub(crate) type Tags = IndexMap<Tag, Ids>;

// For how many tags notes keep their room from one event to the next.
const MOST_SPARE: usize = 64;

/// The ids that take the place of those that are kept for some tags, and beside each of these tags the first id that is kept.
#[derive(Drop)]
pub(crate) struct Notes {
    pub(crate) over: Tags,
    pub(crate) firsts: Vec<Option<ItemId>>,
}

impl Notes {
    /// Returns notes of nothing, which take no memory.
    pub(crate) fn none(alloc: Global) -> Notes
        ensures tags { result.over.entries ≡ [] }
        ensures firsts { result.firsts.items ≡ [] }
    {
        Notes {
            over: IndexMap::new(alloc),
            firsts: Vec::new(alloc),
        }
    }

    /// Empties the notes. They keep their room, if it is not for many tags, and if no tag is left.
    pub(crate) fn clear(&mut self, alloc: Global)
        ensures tags { self.new.over.entries ≡ [] }
        ensures firsts { self.new.firsts.items ≡ [] }
    {
        if !self.over.is_empty() || self.over.capacity() > MOST_SPARE {
            self.over = IndexMap::new(alloc);
        }
        self.firsts.clear();
    }
}

/// Returns the first id that is kept for a tag, if there is one.
pub(crate) fn first_of(tags: &Tags, tag: &Tag) -> Option<ItemId>
    ensures { result ≡ slice_get (ids_in tags.now.entries tag.now) 0 }
{
    match tags.get(tag) {
        Some(ids) => ids.first(),
        None => None,
    }
}

/// Borrows the ids that are kept for a tag, if some are.
pub(crate) fn kept_for<'t>(tags: &'t Tags, tag: &Tag) -> Option<&'t Ids>
    ensures { ids_or_none result ≡ ids_in tags.now.entries tag.now }
{
    tags.get(tag)
}

/// Borrows the ids for a tag, if there are some: those that are noted, or else those that are kept.
pub(crate) fn noted_for<'t>(over: &'t Tags, tags: &'t Tags, tag: &Tag) -> Option<&'t Ids>
    ensures { ids_or_none result ≡ ids_over over.now.entries tags.now.entries tag.now }
{
    match over.get(tag) {
        Some(ids) => Some(ids),
        None => tags.get(tag),
    }
}

// Copies the ids that are kept for a tag.
fn copy_ids(alloc: Global, tags: &Tags, tag: &Tag) -> Result<Ids, OutOfMemory>
    ensures { IfOk result (λ ids. ids ≡ ids_in tags.now.entries tag.now) }
{
    match tags.get(tag) {
        Some(ids) => ids.copied(alloc),
        None => Ok(Ids::none(alloc)),
    }
}

// Puts in the id of an item that comes, or takes out that of one that goes.
fn change_ids(ids: &mut Ids, id: &ItemId, comes: bool) -> Result<(), OutOfMemory>
    ensures { (test : ItemId → Bool) → Lists ids.old test → OnOk result (Lists ids.new (λ each. noted_by comes (test each) (id_eq each id.now))) }
{
    if comes {
        ids.add(*id)
    } else {
        ids.remove(id);
        Ok(())
    }
}

// Notes that an item comes, or that it goes. Its tag is looked up once, and once more among those that are kept where it is
// not noted.
fn note_item(
    alloc: Global,
    notes: &mut Notes,
    tags: &Tags,
    item: &Item,
    comes: bool,
) -> Result<(), OutOfMemory>
    ensures { (test : Tag → ItemId → Bool) → AreNoted notes.old tags.now.entries test
        → OnOk result (AreNoted notes.new tags.now.entries (λ tag id. noted_by comes (test tag id) (is_bearer (item.now ∷ []) tag id))) }
{
    let Some(tag) = tag_of(item) else {
        return Ok(());
    };
    match notes.over.entry(tag)? {
        Entry::Occupied(mut entry) => {
            change_ids(entry.get_mut(), &item.id, comes)?;
            Ok(())
        }
        Entry::Vacant(entry) => {
            let mut ids = copy_ids(alloc, tags, entry.key())?;
            notes.firsts.push(ids.first())?;
            change_ids(&mut ids, &item.id, comes)?;
            entry.insert(ids);
            Ok(())
        }
    }
}

// Notes that items come, or that they go.
fn note_items(
    alloc: Global,
    notes: &mut Notes,
    tags: &Tags,
    items: &[Item],
    comes: bool,
) -> Result<(), OutOfMemory>
    ensures { (test : Tag → ItemId → Bool) → AreNoted notes.old tags.now.entries test
        → OnOk result (AreNoted notes.new tags.now.entries (λ tag id. noted_by comes (test tag id) (is_bearer items.now tag id))) }
{
    for item in items {
        note_item(alloc, notes, tags, item, comes)?;
    }
    Ok(())
}

/// Notes that the items of these boards go.
pub(crate) fn forget_boards(
    alloc: Global,
    notes: &mut Notes,
    tags: &Tags,
    boards: &[Shown],
    keys: &[BoardKey],
) -> Result<(), OutOfMemory>
    ensures { AreShown boards.now → (test : Tag → ItemId → Bool) → AreNoted notes.old tags.now.entries test
        → OnOk result (AreNoted notes.new tags.now.entries
        (λ tag id. test tag id && not (is_bearer (on keys.now (items_of boards.now)) tag id))) }
{
    for key in keys {
        note_items(alloc, notes, tags, board_items(boards, key), false)?;
    }
    Ok(())
}

/// Notes that the items of these boards come.
pub(crate) fn note_boards(
    alloc: Global,
    notes: &mut Notes,
    tags: &Tags,
    boards: &[Shown],
) -> Result<(), OutOfMemory>
    ensures { (test : Tag → ItemId → Bool) → AreNoted notes.old tags.now.entries test
        → OnOk result (AreNoted notes.new tags.now.entries (λ tag id. test tag id || is_bearer (items_of boards.now) tag id)) }
{
    for board in boards {
        note_items(alloc, notes, tags, &board.items, true)?;
    }
    Ok(())
}

// Whether several of the ids for a tag bear one name, which the controllers in a zone do not.
fn share_name(tag: &Tag, ids: &Ids) -> bool
    ensures { result ≡ share_name tag.now.role ids.now }
{
    match tag.role {
        Role::Sensor | Role::Zone | Role::Fan => ids.are_several(),
        Role::Member => false,
    }
}

// Whether several of the ids for one of these tags bear one name.
fn some_share(over: &Tags) -> bool
    ensures { result ≡ some_share over.now.entries }
{
    over.iter().any(|(tag, ids)| share_name(tag, ids))
}

/// Whether names stay the items' own: they were, and none is shared among the ids that take the place of others.
pub(crate) fn stay_own(own: bool, over: &Tags) -> bool
    ensures { result ≡ (own && not (some_share over.now.entries)) }
{
    own && !some_share(over)
}

// Puts ids for a tag in place of those that are kept. There is room for a tag more.
fn keep_ids(tags: &mut Tags, tag: Tag, ids: Ids)
    requires { 0 < spare tags.old }
    ensures ids { (each : Tag) → ids_in tags.new.entries each ≡ (if tag_eq each tag then ids else ids_in tags.old.entries each) }
    ensures room { spare tags.old ≤ spare tags.new + 1 }
{
    if ids.is_empty() {
        let _ = tags.swap_remove(&tag);
        return;
    }
    match tags.insert(tag, ids) {
        Ok(_) => {}
        Err(_) => unreachable!(),
    }
}

/// Moves the ids that are noted in place of those that are kept. There is room for them.
pub(crate) fn keep_noted(tags: &mut Tags, over: &mut Tags)
    requires { length over.old.entries ≤ spare tags.old }
    ensures { (tag : Tag) → ids_in tags.new.entries tag ≡ ids_over over.old.entries tags.old.entries tag }
{
    for _ in 0..over.len() {
        match over.pop() {
            Some((tag, ids)) => keep_ids(tags, tag, ids),
            None => unreachable!(),
        }
    }
}
