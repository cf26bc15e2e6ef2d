ghost use Rattle.std.specs.Prelude.{◌≡◌, ◌+◌, ◌<◌, ◌≤◌, ◌==◌, ◌++◌, ◌∷◌, if◌then◌else◌, List, [], ℕ};
ghost use Rattle.std.specs.Prelude.{filter, length, nat_eq, slice_get, slice_set, None, Some, ⊤, IfOk, OnOk, OnErr, IsSomeAnd};
ghost use Rattle.indexmap.specs.IndexSet.{spare};
ghost use Rattle.inventory.specs.Indexes.{kept_of, with_board, with_boards, index_of, index_in};
ghost use Rattle.inventory.specs.Differences.{places_of};
ghost use Rattle.inventory.specs.Keeping.{keys_of, room_of, no_keep, AreFew, AreListed, IsGreatest, IsReady, most_boards};

use crate::{BoardKey, BoardKeys};
use bmc_base::{OutOfMemory, Place};
use indexmap::IndexSet;
use std::alloc::Global;
use std::marker::Model;

// How many boards a list has at the most, so that each index fits, also the next one.
const MOST_BOARDS: usize = u32::MAX as usize - 1;

/// The boards that each configuration ever had, in the order in which they came, which gives them their
/// indexes. Boards can be staged, so that keeping them takes no memory.
#[derive(Drop)]
pub struct IndexKeep {
    lists: Vec<IndexSet<Option<Place>>>,
    staged: Option<BoardKeys>,
}

impl Model for IndexKeep {
    ghost use Rattle.inventory.specs.Keeping.{Keep, IsSound, keys_of};

    ghost Value = { Keep };

    ghost view = { λ k. record { kept = keys_of k.lists.items; staged = k.staged } };

    ghost invariant = { λ k. IsSound k.staged k.lists.items };
}

// Returns how many lists it takes that each of these keys has one.
fn list_count(keys: &[BoardKey]) -> usize
    ensures { AreListed keys.now result }
{
    let mut count = 0;
    for key in keys {
        count = count.max(key.config as usize + 1);
    }
    count
}

// Adds empty lists up to this number of them.
fn add_lists(
    alloc: Global,
    lists: &mut Vec<IndexSet<Option<Place>>>,
    count: usize,
) -> Result<(), OutOfMemory>
    ensures kept { (number : ℕ) → kept_of (keys_of lists.new.items) number ≡ kept_of (keys_of lists.old.items) number }
    ensures ok { OnOk result (count ≤ length lists.new.items) }
{
    for _ in lists.len()..count {
        lists.push(IndexSet::new(alloc))?;
    }
    Ok(())
}

// Counts the keys of this configuration.
fn count_of(keys: &[BoardKey], number: usize) -> usize
    ensures { result ≡ length (filter (λ key. nat_eq key.config number) keys.now) }
{
    keys.iter()
        .filter(|key| key.config as usize == number)
        .count()
}

// The greatest configuration of some keys, and how many keys are of it.
#[derive(Clone, Copy)]
struct Greatest {
    // one more than its number, or 0 where there is none
    end: usize,
    count: usize,
}

impl Greatest {
    // Counts the keys of a configuration. Where none of them is of a greater one, they are not gone through.
    fn count_of(&self, keys: &[BoardKey], config: u32) -> usize
        requires { IsGreatest keys.now self.now.end self.now.count }
        ensures { result ≡ length (places_of config keys.now) }
    {
        let number = config as usize;
        if number >= self.end {
            0
        } else if number + 1 == self.end {
            self.count
        } else {
            count_of(keys, number)
        }
    }

    // Returns the same with one key more, of a configuration that so many keys were of.
    fn with(&self, config: u32, count: usize) -> Greatest
        requires { count < most_boards }
        ensures { (keys : List BoardKey) (key : BoardKey) → IsGreatest keys self.now.end self.now.count → key.config ≡ config
            → count ≡ length (places_of config keys) → IsGreatest (keys ++ key ∷ []) result.end result.count }
    {
        let end = config as usize + 1;
        if end < self.end {
            Greatest {
                end: self.end,
                count: self.count,
            }
        } else {
            Greatest {
                end,
                count: count + 1,
            }
        }
    }
}

// Makes room in a list for one board more than so many.
fn reserve_list(list: &mut IndexSet<Option<Place>>, count: usize) -> Result<(), OutOfMemory>
    ensures kept { list.new.keys ≡ list.old.keys }
    ensures room { OnOk result (count < spare list.new) }
    ensures few { OnOk result (length list.new.keys + count < most_boards) }
{
    if count >= MOST_BOARDS || list.len() >= MOST_BOARDS - count {
        return Err(OutOfMemory);
    }
    list.reserve(count + 1)?;
    Ok(())
}

// Makes room in each list for the boards of these keys that are of its configuration. Only lists that keys are of
// are looked at.
fn reserve_lists(
    lists: &mut [IndexSet<Option<Place>>],
    keys: &[BoardKey],
) -> Result<(), OutOfMemory>
    requires listed { AreListed keys.now (length lists.old) }
    requires few { AreFew (keys_of lists.old) }
    ensures kept { (number : ℕ) → kept_of (keys_of lists.new) number ≡ kept_of (keys_of lists.old) number }
    ensures ready { OnOk result ((number : ℕ) → number < length lists.old → IsReady keys.now lists.new number) }
{
    let mut greatest = Greatest { end: 0, count: 0 };
    for i in 0..keys.len() {
        let config = keys[i].config;
        let count = greatest.count_of(&keys[..i], config);
        reserve_list(&mut lists[config as usize], count)?;
        greatest = greatest.with(config, count);
    }
    Ok(())
}

// Keeps a board in the list with this number, which has room for one more.
fn keep_board(lists: &mut [IndexSet<Option<Place>>], number: usize, place: Option<Place>)
    requires within { number < length lists.old }
    requires room { 0 < room_of lists.old number }
    ensures kept { keys_of lists.new ≡ slice_set (keys_of lists.old) number (with_board (kept_of (keys_of lists.old) number) place) }
    ensures room { (each : ℕ) → room_of lists.old each ≤ room_of lists.new each + (if each == number then 1 else 0) }
{
    let _ = lists[number].insert_full(place);
}

// Keeps the boards of these keys, for which there is room.
fn keep_boards(lists: &mut [IndexSet<Option<Place>>], keys: &[BoardKey])
    requires listed { AreListed keys.now (length lists.old) }
    requires room { (number : ℕ) → number < length lists.old → IsReady keys.now lists.old number }
    ensures { (number : ℕ) → kept_of (keys_of lists.new) number ≡ with_boards (kept_of (keys_of lists.old) number) (places_of number keys.now) }
{
    for key in keys {
        keep_board(lists, key.config as usize, key.place);
    }
}

// Keeps the boards of these keys, for which there is room, so that each index fits.
fn keep_staged(lists: &mut [IndexSet<Option<Place>>], keys: &[BoardKey])
    requires listed { AreListed keys.now (length lists.old) }
    requires room { (number : ℕ) → number < length lists.old → IsReady keys.now lists.old number }
    ensures kept { (number : ℕ) → kept_of (keys_of lists.new) number ≡ with_boards (kept_of (keys_of lists.old) number) (places_of number keys.now) }
    ensures few { AreFew (keys_of lists.new) }
{
    keep_boards(lists, keys);
}

// Keeps the boards of these keys, each behind the others in its list if it is not kept yet, or changes nothing.
fn extend_lists(lists: &mut [IndexSet<Option<Place>>], keys: &[BoardKey]) -> Result<(), OutOfMemory>
    requires listed { AreListed keys.now (length lists.old) }
    requires few { AreFew (keys_of lists.old) }
    ensures ok { OnOk result ((number : ℕ) → kept_of (keys_of lists.new) number
        ≡ with_boards (kept_of (keys_of lists.old) number) (places_of number keys.now)) }
    ensures err { OnErr result ((number : ℕ) → kept_of (keys_of lists.new) number ≡ kept_of (keys_of lists.old) number) }
    ensures few { AreFew (keys_of lists.new) }
{
    reserve_lists(lists, keys)?;
    keep_boards(lists, keys);
    Ok(())
}

// Returns the index of a board in the list of its configuration.
fn index_in_list(list: &IndexSet<Option<Place>>, place: Option<Place>) -> Option<u32>
    requires { length list.now.keys ≤ most_boards }
    ensures { result ≡ index_of list.now.keys place }
{
    let at = list.get_index_of(&place)?;
    Some(at as u32 + 1)
}

// Counts the boards in a list.
fn count_in_list(list: &IndexSet<Option<Place>>) -> u32
    requires { length list.now.keys ≤ most_boards }
    ensures { result ≡ length list.now.keys }
{
    list.len() as u32
}

// Returns the index of a board in the list of its configuration, or the next one.
#[tactic(auto, using(crate::proofs::KeepingLemmas::next_index_is))]
fn next_index(list: &IndexSet<Option<Place>>, place: Option<Place>) -> u32
    requires { length list.now.keys ≤ most_boards }
    ensures { result ≡ index_in list.now.keys place }
{
    index_in_list(list, place).unwrap_or(list.len() as u32 + 1)
}

impl IndexKeep {
    /// Returns a keep of no boards.
    pub fn new(alloc: Global) -> Result<IndexKeep, OutOfMemory>
        ensures { IfOk result (λ keep. keep ≡ no_keep) }
    {
        Ok(IndexKeep {
            lists: Vec::new(alloc),
            staged: None,
        })
    }

    /// Keeps the boards of these keys, each behind the others of its configuration if it is not kept yet, and
    /// discards what is staged. For want of memory, or where a configuration would have more boards than a `u32`
    /// counts, none is kept.
    pub fn extend(&mut self, alloc: Global, keys: &[BoardKey]) -> Result<(), OutOfMemory>
        ensures ok { OnOk result ((number : ℕ) → kept_of self.new.kept number ≡ with_boards (kept_of self.old.kept number) (places_of number keys.now)) }
        ensures err { OnErr result ((number : ℕ) → kept_of self.new.kept number ≡ kept_of self.old.kept number) }
        ensures staged { self.new.staged ≡ None }
    {
        self.staged = None;
        add_lists(alloc, &mut self.lists, list_count(keys))?;
        extend_lists(&mut self.lists, keys)
    }

    /// Stages the boards of these keys in place of what is staged, so that [`commit`](IndexKeep::commit) takes no
    /// memory. What is kept stays. For want of memory, or where a configuration would have more boards than a
    /// `u32` counts, nothing is staged.
    pub fn stage(&mut self, alloc: Global, keys: BoardKeys) -> Result<(), OutOfMemory>
        ensures kept { (number : ℕ) → kept_of self.new.kept number ≡ kept_of self.old.kept number }
        ensures ok { OnOk result (self.new.staged ≡ Some keys) }
        ensures err { OnErr result (self.new.staged ≡ None) }
    {
        self.staged = None;
        add_lists(alloc, &mut self.lists, list_count(keys.as_slice()))?;
        reserve_lists(&mut self.lists, keys.as_slice())?;
        self.staged = Some(keys);
        Ok(())
    }

    /// Keeps the boards that are staged, each behind the others of its configuration if it is not kept yet, and
    /// returns their keys. Takes no memory.
    pub fn commit(&mut self) -> BoardKeys
        requires { IsSomeAnd self.old.staged (λ _. ⊤) }
        ensures keys { self.old.staged ≡ Some result }
        ensures kept { (number : ℕ) → kept_of self.new.kept number ≡ with_boards (kept_of self.old.kept number) (places_of number result) }
        ensures staged { self.new.staged ≡ None }
    {
        match self.staged.take() {
            Some(keys) => {
                keep_staged(&mut self.lists, keys.as_slice());
                keys
            }
            None => unreachable!(),
        }
    }

    /// Returns the index of a board, from 1, if it is kept.
    pub fn index_of(&self, key: &BoardKey) -> Option<u32>
        ensures { result ≡ index_of (kept_of self.now.kept key.now.config) key.now.place }
    {
        let number = key.config as usize;
        if number < self.lists.len() {
            index_in_list(&self.lists[number], key.place)
        } else {
            None
        }
    }

    /// Returns the board at this position, from 0, among those that are kept of a configuration, if there is one. Its index is
    /// one more.
    pub fn at(&self, number: u32, position: usize) -> Option<Option<Place>>
        ensures { result ≡ slice_get (kept_of self.now.kept number) position }
    {
        let list = self.lists.get(number as usize)?;
        list.get_index(position).copied()
    }

    // Counts the boards that are kept of a configuration.
    pub(crate) fn count(&self, number: u32) -> u32
        ensures { result ≡ length (kept_of self.now.kept number) }
    {
        let number = number as usize;
        if number < self.lists.len() {
            count_in_list(&self.lists[number])
        } else {
            0
        }
    }

    /// Returns the index of a board that is kept, from 1, or the one that it would get next.
    pub fn index(&self, key: &BoardKey) -> u32
        ensures { result ≡ index_in (kept_of self.now.kept key.now.config) key.now.place }
    {
        let number = key.config as usize;
        if number < self.lists.len() {
            next_index(&self.lists[number], key.place)
        } else {
            1
        }
    }
}
