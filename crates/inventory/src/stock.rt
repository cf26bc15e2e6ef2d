ghost use Rattle.std.specs.Prelude.{◌≡◌, ◌≤◌, ◌++◌, ◌&&◌, ◌||◌, not, ⊤, Bool, List, [], filter_map, length, option_map, option_to_list, true, None, Some};
ghost use Rattle.std.specs.Prelude.{IfOk, OnOk, OnErr, IsSomeAnd};
ghost use Rattle.std.specs.List.{All};
ghost use Rattle.std.specs.Option.{option_or};
ghost use Rattle.indexmap.specs.IndexMap.{keys};
ghost use Rattle.cfg_json.specs.declared.item.Item.{Item};
ghost use Rattle.cfg_json.specs.declared.item.ItemId.{ItemId};
ghost use Rattle.inventory.specs.Bearers.{ids_in, ids_over, is_bearer, leads, touched, AreBorne, Lists};
ghost use Rattle.inventory.specs.Follows.{item_of, kept_with, on, AreKeysAscending, Follows};
ghost use Rattle.inventory.specs.Items.{entry_fields, holder, is_item, is_live, items_less, live, AreNamedLive, IsValidItem};
ghost use Rattle.inventory.specs.Leads.{AreInOrder};
ghost use Rattle.inventory.specs.Naming.{naming_items};
ghost use Rattle.inventory.specs.Shown.{items_of, AreShown};
ghost use Rattle.inventory.specs.Stocks.{AreNoted};
ghost use Rattle.inventory.specs.declared.tag.Tag.{Tag};

use crate::coming::show_coming;
use crate::ids::is_same;
use crate::leads::{Leads, append_copies};
use crate::shown::Shown;
use crate::shown_boards::{insert_boards, item_at, remove_boards};
use crate::tag::name_tag;
use crate::tags::{Notes, Tags, first_of, forget_boards, keep_noted, note_boards, stay_own};
use crate::{BoardKey, Difference, Family, IndexKeep, ItemList, Moment};
use bmc_base::{Ledger, Name, OutOfMemory};
use cfg_json::{Config, Item, ItemId, ItemPart, Shelf};
use indexmap::IndexMap;
use std::alloc::Global;
use std::marker::Model;

// What is staged beside the notes: the boards that go, those that come, and whether it is known that no two items share a name in
// a family then.
#[derive(Drop)]
struct Staged {
    gone: Vec<BoardKey>,
    new: Vec<Shown>,
    own_names: bool,
}

/// The items of one moment that may be live, which are sensors, zones, fans and controllers, and which of them are. Boards that go
/// and come are staged, so that taking them over takes no memory. What either takes follows the items of these boards, those that
/// bear their names, and the controllers in the zones whose names become held or free or that these boards have controllers in.
/// Beside them stands whether it is known that no two items share a name in a family.
#[derive(Drop)]
pub struct Stock {
    boards: Vec<Shown>,
    tags: Tags,
    staged: Option<Staged>,
    own_names: bool,
    // For each tag of the items of boards that are staged the ids that are kept for it then. The room serves each event.
    notes: Notes,
}

impl Model for Stock {
    ghost use Rattle.inventory.specs.Follows.{Stock};
    ghost use Rattle.inventory.specs.Stocks.{stock_of, IsSound};

    ghost Value = { Stock };

    ghost view = { λ s. stock_of s.boards s.staged };

    ghost invariant = { λ s. IsSound s.boards s.tags s.notes.over.entries s.staged s.own_names };
}

/// The live items that go and those that come, by board and expose.
#[derive(Drop)]
pub struct ItemDifference {
    /// The items that go.
    pub gone: ItemList,
    /// The items that come.
    pub new: ItemList,
}

impl ItemDifference {
    // Returns a difference of no items.
    fn none(alloc: Global) -> ItemDifference
        ensures gone { result.gone ≡ [] }
        ensures new { result.new ≡ [] }
    {
        ItemDifference {
            gone: ItemList::new(alloc),
            new: ItemList::new(alloc),
        }
    }
}

// Copies keys.
fn copy_keys(alloc: Global, keys: &[BoardKey]) -> Result<Vec<BoardKey>, OutOfMemory>
    ensures { IfOk result (λ copy. copy.items ≡ keys.now) }
{
    let mut copy = Vec::new(alloc);
    copy.extend_from_slice(keys)?;
    Ok(copy)
}

/// Notes the ids for the tags of the items where the boards with these keys go and others come.
pub(crate) fn note_change(
    alloc: Global,
    notes: &mut Notes,
    tags: &Tags,
    boards: &[Shown],
    gone: &[BoardKey],
    new: &[Shown],
) -> Result<(), OutOfMemory>
    requires tags { notes.old.over.entries ≡ [] }
    requires firsts { notes.old.firsts.items ≡ [] }
    ensures { AreShown boards.now → (test : Tag → ItemId → Bool) → AreBorne [] tags.now.entries test
        → OnOk result (AreNoted notes.new tags.now.entries
        (λ tag id. (test tag id && not (is_bearer (on gone.now (items_of boards.now)) tag id)) || is_bearer (items_of new.now) tag id)) }
{
    forget_boards(alloc, notes, tags, boards, gone)?;
    note_boards(alloc, notes, tags, new)?;
    Ok(())
}

/// Lists the live items that go and those that come, where others take the place of the ids for some tags.
pub(crate) fn compare(
    alloc: Global,
    tags: &Tags,
    notes: &Notes,
    boards: &[Shown],
    new: &[Shown],
) -> Result<ItemDifference, OutOfMemory>
    ensures gone { AreShown boards.now → AreShown new.now → AreInOrder notes.now tags.now.entries → (ids : List ItemId)
        → Lists ids (leads (ids_in tags.now.entries) (ids_over notes.now.over.entries tags.now.entries) (touched (keys notes.now.over)))
        → IfOk result (λ difference. difference.gone
        ≡ filter_map (λ id. option_or (item_of (items_of boards.now) id) (item_of (items_of new.now) id)) ids) }
    ensures new { AreShown boards.now → AreShown new.now → AreInOrder notes.now tags.now.entries → (ids : List ItemId)
        → Lists ids (leads (ids_over notes.now.over.entries tags.now.entries) (ids_in tags.now.entries) (touched (keys notes.now.over)))
        → IfOk result (λ difference. difference.new
        ≡ filter_map (λ id. option_or (item_of (items_of new.now) id) (item_of (items_of boards.now) id)) ids) }
{
    let mut leads = Leads::none(alloc);
    leads.find(notes, tags)?;
    let mut difference = ItemDifference::none(alloc);
    append_copies(alloc, &mut difference.gone, &leads.gone, boards, new)?;
    append_copies(alloc, &mut difference.new, &leads.new, new, boards)?;
    Ok(difference)
}

impl Stock {
    /// Returns a stock of no items.
    pub fn new(alloc: Global) -> Result<Stock, OutOfMemory>
        ensures { IfOk result (λ stock. stock ≡ record { items = []; staged = None }) }
    {
        Ok(Stock {
            boards: Vec::new(alloc),
            tags: IndexMap::new(alloc),
            staged: None,
            own_names: true,
            notes: Notes::none(alloc),
        })
    }

    /// Stages the boards that go and those that come in place of what is staged, and returns the live items that go and those
    /// that come. The settings of the sensors that come are valid. Nothing of what is there changes. For want of memory nothing
    /// is staged.
    pub fn prepare<L: Ledger>(
        &mut self,
        alloc: Global,
        shelf: &Shelf<L>,
        plus: Option<&Config<L>>,
        keep: &IndexKeep,
        difference: &Difference,
        after: &Moment<'_>,
    ) -> Result<ItemDifference, OutOfMemory>
        requires few { length (shelf.now ++ option_to_list (option_map (λ config. config.now) plus)) ≤ 256 }
        requires order { AreKeysAscending difference.now.new_boards }
        requires tie { let all = shelf.now ++ option_to_list (option_map (λ config. config.now) plus) in (next : List Item) ×
            Follows difference.now.gone_boards difference.now.new_boards self.old.items
            (naming_items all (kept_with keep.now.kept difference.now.new_boards) (entry_fields after.now.entries) difference.now.new_boards) next }
        ensures items { self.new.items ≡ self.old.items }
        ensures staged { let all = shelf.now ++ option_to_list (option_map (λ config. config.now) plus.entry) in (next : List Item)
            → Follows difference.now.gone_boards difference.now.new_boards self.old.items
            (naming_items all (kept_with keep.now.kept difference.now.new_boards) (entry_fields after.now.entries) difference.now.new_boards) next
            → OnOk result (self.new.staged ≡ Some next) }
        ensures gone { IfOk result (λ difference. IsSomeAnd self.new.staged (λ next. difference.gone ≡ items_less (live self.old.items) (live next))) }
        ensures new { IfOk result (λ difference. IsSomeAnd self.new.staged (λ next. difference.new ≡ items_less (live next) (live self.old.items))) }
        ensures valid { IfOk result (λ difference. All IsValidItem difference.new) }
        ensures err { OnErr result (self.new.staged ≡ None) }
    {
        self.staged = None;
        self.notes.clear(alloc);
        let gone = copy_keys(alloc, difference.gone_boards.as_slice())?;
        let keys = difference.new_boards.as_slice();
        let new = show_coming(alloc, shelf, plus, keep, keys, after)?;
        note_change(
            alloc,
            &mut self.notes,
            &self.tags,
            &self.boards,
            &gone,
            &new,
        )?;
        let items = compare(alloc, &self.tags, &self.notes, &self.boards, &new)?;
        self.tags.reserve(self.notes.over.len())?;
        self.boards.reserve(new.len())?;
        let own_names = stay_own(self.own_names, &self.notes.over);
        self.staged = Some(Staged {
            gone,
            new,
            own_names,
        });
        Ok(items)
    }

    /// Takes over what is staged. It takes no memory.
    pub fn commit(&mut self)
        requires { IsSomeAnd self.old.staged (λ _. ⊤) }
        ensures items { self.old.staged ≡ Some self.new.items }
        ensures staged { self.new.staged ≡ None }
    {
        match self.staged.take() {
            Some(
                Staged {
                    gone,
                    new,
                    own_names,
                },
            ) => {
                remove_boards(&mut self.boards, &gone);
                insert_boards(&mut self.boards, new);
                keep_noted(&mut self.tags, &mut self.notes.over);
                self.own_names = own_names || self.tags.is_empty();
            }
            None => unreachable!(),
        }
    }

    /// Borrows the boards that have items, with their items, by configuration and place.
    pub fn boards(&self) -> &[Shown]
        ensures { items_of result.now ≡ self.now.items }
    {
        &self.boards
    }

    /// Whether it is known that no two items share a name in a family, so that each sensor, zone and fan is live. No name is
    /// looked up.
    pub fn have_own_names(&self) -> bool
        ensures { result ≡ true → AreNamedLive self.now.items self.now.items }
    {
        self.own_names
    }

    // Returns the id of the item that holds a name in a family, if one does. The name is looked up once, and no item.
    fn holder_id(&self, family: Family, name: &Name) -> Option<ItemId>
        ensures { result ≡ option_map (λ item. item.id) (holder self.now.items family name.now) }
    {
        first_of(&self.tags, &name_tag(family, name))
    }

    /// Borrows the item that holds a name in a family, if one does. The name is looked up once.
    pub fn holder(&self, family: Family, name: &Name) -> Option<&Item>
        ensures { option_map (λ item. item.now) result ≡ holder self.now.items family name.now }
    {
        let id = self.holder_id(family, name)?;
        item_at(&self.boards, &id)
    }

    // Whether an item holds its name in a family. The name is looked up once, and no item.
    fn holds(&self, family: Family, item: &Item) -> bool
        ensures { result ≡ is_item item.now.id (holder self.now.items family item.now.name) }
    {
        is_same(&item.id, self.holder_id(family, &item.name))
    }

    /// Whether an item is live, which is so where it holds its name, and for a controller where the name of its zone is held.
    /// One name is looked up.
    pub fn is_live(&self, item: &Item) -> bool
        ensures { result ≡ is_live self.now.items item.now }
    {
        match &item.part {
            ItemPart::Sensor(_) => self.holds(Family::Sensor, item),
            ItemPart::Zone(_) => self.holds(Family::Zone, item),
            ItemPart::Fan => self.holds(Family::Fan, item),
            ItemPart::Control(control) => self
                .holder_id(Family::Zone, &control.get().zone)
                .is_some(),
            ItemPart::Mux(_) | ItemPart::Passive => false,
        }
    }
}
