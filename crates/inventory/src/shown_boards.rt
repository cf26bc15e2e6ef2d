ghost use Rattle.std.specs.Prelude.{◌≡◌, ◌+◌, ◌<◌, ◌≤◌, ◌∷◌, [], length, option_map, slice_get, if◌then◌else◌, None, vec_len, vec_capacity};
ghost use Rattle.std.specs.List.{prefix_len};
ghost use Rattle.std.specs.Ordering.{is_lt};
ghost use Rattle.inventory.specs.Follows.{item_of, on};
ghost use Rattle.inventory.specs.Orders.{id_cmp, key_cmp, AreById};
ghost use Rattle.inventory.specs.Shown.{is_board, is_item_at, items_of, with_all, with_shown, without_keys, AreOrdered, AreShown};

use crate::BoardKey;
use crate::ids::is_before;
use crate::shown::Shown;
use cfg_json::{Item, ItemId};

// Whether a board comes before another.
fn is_key_before(key: &BoardKey, other: &BoardKey) -> bool
    ensures { result ≡ is_lt (key_cmp key.now other.now) }
{
    key.config
        .cmp(&other.config)
        .then(key.place.cmp(&other.place))
        .is_lt()
}

// Counts the boards that come before one.
fn boards_before(boards: &[Shown], key: &BoardKey) -> usize
    ensures value { AreOrdered boards.now → result ≡ prefix_len (λ board. is_lt (key_cmp board.key key.now)) boards.now }
    ensures range { result ≤ length boards.now }
{
    boards.partition_point(|board| is_key_before(&board.key, key))
}

// Counts the items that come before one.
fn items_before(items: &[Item], id: &ItemId) -> usize
    ensures value { AreById items.now → result ≡ prefix_len (λ item. is_lt (id_cmp item.id id.now)) items.now }
    ensures range { result ≤ length items.now }
{
    items.partition_point(|item| is_before(&item.id, id))
}

// Whether the board with a number is this one.
fn is_board_at(boards: &[Shown], number: usize, key: &BoardKey) -> bool
    ensures { result ≡ is_board key.now (slice_get boards.now number) }
{
    number < boards.len() && *key == boards[number].key
}

// Borrows the item with a number, if it is this one.
fn item_if<'b>(items: &'b [Item], number: usize, id: &ItemId) -> Option<&'b Item>
    ensures { option_map (λ item. item.now) result ≡ (if is_item_at id.now (slice_get items.now number) then slice_get items.now number else None) }
{
    let item = items.get(number)?;
    if *id == item.id { Some(item) } else { None }
}

/// Borrows the items of a board. There are none where it is not among these.
pub(crate) fn board_items<'b>(boards: &'b [Shown], key: &BoardKey) -> &'b [Item]
    ensures { AreShown boards.now → result.now ≡ on (key.now ∷ []) (items_of boards.now) }
{
    let at = boards_before(boards, key);
    if is_board_at(boards, at, key) {
        &boards[at].items
    } else {
        &[]
    }
}

/// Borrows the item with an id, if there is one.
pub(crate) fn item_at<'b>(boards: &'b [Shown], id: &ItemId) -> Option<&'b Item>
    ensures { AreShown boards.now → option_map (λ item. item.now) result ≡ item_of (items_of boards.now) id.now }
{
    let key = BoardKey {
        config: id.config,
        place: id.place,
    };
    let items = board_items(boards, &key);
    item_if(items, items_before(items, id), id)
}

// Takes out a board, if it is there.
fn remove_board(boards: &mut Vec<Shown>, key: &BoardKey)
    ensures items { AreOrdered boards.old.items → boards.new.items ≡ without_keys (key.now ∷ []) boards.old.items }
    ensures len { vec_len boards.new ≤ vec_len boards.old }
    ensures capacity { vec_capacity boards.new ≡ vec_capacity boards.old }
{
    let at = boards_before(boards, key);
    if is_board_at(boards, at, key) {
        let _ = boards.remove(at);
    }
}

/// Takes out the boards with these keys.
pub(crate) fn remove_boards(boards: &mut Vec<Shown>, keys: &[BoardKey])
    ensures items { AreOrdered boards.old.items → boards.new.items ≡ without_keys keys.now boards.old.items }
    ensures len { vec_len boards.new ≤ vec_len boards.old }
    ensures capacity { vec_capacity boards.new ≡ vec_capacity boards.old }
{
    for key in keys {
        remove_board(boards, key);
    }
}

// Puts a board among the others. There is room for it.
fn insert_board(boards: &mut Vec<Shown>, board: Shown)
    requires { vec_len boards.old < vec_capacity boards.old }
    ensures items { AreOrdered boards.old.items → boards.new.items ≡ with_shown board boards.old.items }
    ensures len { vec_len boards.new ≡ vec_len boards.old + 1 }
    ensures capacity { vec_capacity boards.new ≡ vec_capacity boards.old }
{
    let at = boards_before(boards, &board.key);
    match boards.insert(at, board) {
        Ok(()) => {}
        Err(_) => unreachable!(),
    }
}

/// Puts boards among the others. There is room for them.
pub(crate) fn insert_boards(boards: &mut Vec<Shown>, mut more: Vec<Shown>)
    requires { vec_len boards.old + vec_len more ≤ vec_capacity boards.old }
    ensures { AreOrdered (with_all more.items boards.old.items) → boards.new.items ≡ with_all more.items boards.old.items }
{
    for _ in 0..more.len() {
        match more.pop() {
            Some(board) => insert_board(boards, board),
            None => unreachable!(),
        }
    }
}
