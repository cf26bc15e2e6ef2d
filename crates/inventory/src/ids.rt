ghost use Rattle.std.specs.Prelude.{◌≡◌, ◌==◌, ◌+◌, ◌<◌, ◌≤◌, ◌++◌, [], Bool, if◌then◌else◌, None, length, option_to_list, slice_get, vec_len};
ghost use Rattle.std.specs.Prelude.{not, ◌&&◌, vec_capacity, IfOk, OnOk};
ghost use Rattle.std.specs.List.{list_any, prefix_len};
ghost use Rattle.std.specs.List.Sorted.{IsStrictlySortedBy};
ghost use Rattle.std.specs.Ordering.{is_lt};
ghost use Rattle.cfg_json.specs.declared.item.ItemId.{ItemId};
ghost use Rattle.inventory.specs.Bearers.{are_several, but_id, ids_or_none, is_id, or_id, Lists};
ghost use Rattle.inventory.specs.Items.{id_eq};
ghost use Rattle.inventory.specs.Leads.{ListsMore};
ghost use Rattle.inventory.specs.Orders.{id_cmp};

use bmc_base::OutOfMemory;
use cfg_json::ItemId;
use std::alloc::Global;
use std::marker::Model;

/// Ids of items, which ascend. One id alone takes no memory.
#[derive(Drop)]
pub(crate) struct Ids {
    first: Option<ItemId>,
    rest: Vec<ItemId>,
}

impl Model for Ids {
    ghost use Rattle.std.specs.Prelude.{List, ◌++◌, option_to_list};
    ghost use Rattle.cfg_json.specs.declared.item.ItemId.{ItemId};

    ghost Value = { List ItemId };

    ghost view = { λ i. option_to_list i.first ++ i.rest.items };
}

/// Whether an id comes before another.
pub(crate) fn is_before(id: &ItemId, other: &ItemId) -> bool
    ensures { result ≡ is_lt (id_cmp id.now other.now) }
{
    id.config
        .cmp(&other.config)
        .then(id.place.cmp(&other.place))
        .then(id.expose.cmp(&other.expose))
        .is_lt()
}

// Counts the ids that come before one, among ids that ascend.
fn count_before(ids: &[ItemId], id: &ItemId) -> usize
    ensures value { IsStrictlySortedBy id_cmp ids.now → result ≡ prefix_len (λ each. is_lt (id_cmp each id.now)) ids.now }
    ensures range { result ≤ length ids.now }
{
    ids.partition_point(|each| is_before(each, id))
}

// Whether the id with a number is this one.
fn is_at(ids: &[ItemId], number: usize, id: &ItemId) -> bool
    ensures { result ≡ is_id id.now (slice_get ids.now number) }
{
    number < ids.len() && *id == ids[number]
}

/// Whether an id is the other, if there is one.
pub(crate) fn is_same(id: &ItemId, other: Option<ItemId>) -> bool
    ensures { result ≡ is_id id.now other }
{
    match other {
        Some(other) => *id == other,
        None => false,
    }
}

/// Puts an id among others, if it is not there. There is room for it.
pub(crate) fn add_id(ids: &mut Vec<ItemId>, id: ItemId)
    requires { vec_len ids.old < vec_capacity ids.old }
    ensures { (test : ItemId → Bool) → Lists ids.old.items test → Lists ids.new.items (or_id test id) }
{
    let at = count_before(ids, &id);
    if is_at(ids, at, &id) {
        return;
    }
    match ids.insert(at, id) {
        Ok(()) => {}
        Err(_) => unreachable!(),
    }
}

// Takes out an id, if it is there.
fn remove_id(ids: &mut Vec<ItemId>, id: &ItemId)
    ensures { (test : ItemId → Bool) → Lists ids.old.items test → Lists ids.new.items (but_id test id.now) }
{
    let at = count_before(ids, id);
    if is_at(ids, at, id) {
        let _ = ids.remove(at);
    }
}

// Puts an id before others, if there is one. There is room for it and one more.
fn put_first(first: Option<ItemId>, ids: &mut Vec<ItemId>)
    requires { vec_len ids.old + 1 < vec_capacity ids.old }
    ensures items { ids.new.items ≡ option_to_list first ++ ids.old.items }
    ensures room { vec_len ids.new < vec_capacity ids.new }
{
    // field by field, since the check gets no proof where the id itself is put in
    let Some(
        ItemId {
            config,
            place,
            expose,
        },
    ) = first
    else {
        return;
    };
    let id = ItemId {
        config,
        place,
        expose,
    };
    match ids.insert(0, id) {
        Ok(()) => {}
        Err(_) => unreachable!(),
    }
}

// Returns an id, if there is one and it is not this one.
fn other_than(first: Option<ItemId>, id: &ItemId) -> Option<ItemId>
    ensures { result ≡ (if is_id id.now first then None else first) }
{
    if first == Some(*id) { None } else { first }
}

// Puts an id in a list, if there is one and others, which ascend, do not have it.
fn list_unless(
    list: &mut Vec<ItemId>,
    id: Option<ItemId>,
    others: Option<&Ids>,
) -> Result<(), OutOfMemory>
    ensures { IsStrictlySortedBy id_cmp (ids_or_none others.entry) → OnOk result (ListsMore list.old.items list.new.items
        (λ each. is_id each id && not (list_any (id_eq each) (ids_or_none others.entry)))) }
{
    let Some(id) = id else {
        return Ok(());
    };
    if has_id(others, &id) {
        return Ok(());
    }
    list.reserve(1)?;
    add_id(list, id);
    Ok(())
}

// Puts ids in a list, those that others, which ascend, do not have.
fn list_all(list: &mut Vec<ItemId>, ids: &[ItemId], others: Option<&Ids>) -> Result<(), OutOfMemory>
    ensures { IsStrictlySortedBy id_cmp (ids_or_none others.entry) → OnOk result (ListsMore list.old.items list.new.items
        (λ each. list_any (id_eq each) ids.now && not (list_any (id_eq each) (ids_or_none others.entry)))) }
{
    for id in ids {
        list_unless(list, Some(*id), others)?;
    }
    Ok(())
}

// Whether an id is among these, which ascend, if there are some.
fn has_id(ids: Option<&Ids>, id: &ItemId) -> bool
    ensures { IsStrictlySortedBy id_cmp (ids_or_none ids.entry) → result ≡ list_any (id_eq id.now) (ids_or_none ids.entry) }
{
    match ids {
        Some(ids) => ids.has(id),
        None => false,
    }
}

impl Ids {
    /// Returns no ids, which takes no memory.
    pub(crate) fn none(alloc: Global) -> Ids
        ensures { result ≡ [] }
    {
        Ids {
            first: None,
            rest: Vec::new(alloc),
        }
    }

    /// Returns equal ids.
    pub(crate) fn copied(&self, alloc: Global) -> Result<Ids, OutOfMemory>
        ensures { IfOk result (λ ids. ids ≡ self.now) }
    {
        let mut rest = Vec::new(alloc);
        rest.extend_from_slice(&self.rest)?;
        Ok(Ids {
            first: self.first,
            rest,
        })
    }

    /// Whether there are none.
    pub(crate) fn is_empty(&self) -> bool
        ensures { result ≡ (length self.now == 0) }
    {
        self.first.is_none() && self.rest.is_empty()
    }

    /// Whether there are several.
    pub(crate) fn are_several(&self) -> bool
        ensures { result ≡ are_several self.now }
    {
        match self.first {
            Some(_) => !self.rest.is_empty(),
            None => self.rest.len() > 1,
        }
    }

    /// Returns the first id, if there is one.
    pub(crate) fn first(&self) -> Option<ItemId>
        ensures { result ≡ slice_get self.now 0 }
    {
        match self.first {
            Some(first) => Some(first),
            None => self.rest.first().copied(),
        }
    }

    /// Whether an id is among these, which ascend.
    pub(crate) fn has(&self, id: &ItemId) -> bool
        ensures { IsStrictlySortedBy id_cmp self.now → result ≡ list_any (id_eq id.now) self.now }
    {
        if is_same(id, self.first) {
            return true;
        }
        is_at(&self.rest, count_before(&self.rest, id), id)
    }

    /// Puts an id among the others, if it is not there.
    pub(crate) fn add(&mut self, id: ItemId) -> Result<(), OutOfMemory>
        ensures { (test : ItemId → Bool) → Lists self.old test → OnOk result (Lists self.new (or_id test id)) }
    {
        if self.first.is_none() && self.rest.is_empty() {
            self.first = Some(id);
            return Ok(());
        }
        self.rest.reserve(2)?;
        put_first(self.first.take(), &mut self.rest);
        add_id(&mut self.rest, id);
        Ok(())
    }

    /// Takes out an id, if it is there.
    pub(crate) fn remove(&mut self, id: &ItemId)
        ensures { (test : ItemId → Bool) → Lists self.old test → Lists self.new (but_id test id.now) }
    {
        self.first = other_than(self.first, id);
        remove_id(&mut self.rest, id);
    }
    /// Puts those of these ids in a list that others, which ascend, do not have.
    pub(crate) fn list_less(
        &self,
        others: Option<&Ids>,
        list: &mut Vec<ItemId>,
    ) -> Result<(), OutOfMemory>
        ensures { IsStrictlySortedBy id_cmp (ids_or_none others.entry) → OnOk result (ListsMore list.old.items list.new.items
            (λ each. list_any (id_eq each) self.now && not (list_any (id_eq each) (ids_or_none others.entry)))) }
    {
        list_unless(list, self.first, others)?;
        list_all(list, &self.rest, others)?;
        Ok(())
    }
}
