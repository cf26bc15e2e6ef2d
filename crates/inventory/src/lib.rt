//! Tells the boards of a moment, what changes from one moment to the next, the index that each board has for good, what
//! boards expose, and which of it is live.
#![tactic(auto)]

mod apart;
mod board;
mod boards;
mod changed;
mod coming;
mod compare;
mod configs;
mod family;
mod fault;
mod hits;
mod ids;
mod index_keep;
mod item_list;
mod items;
pub mod law;
mod leads;
mod limits;
mod listing;
#[cfg(test)]
mod live_tests;
mod lone;
mod moment;
mod shown;
mod shown_boards;
mod stock;
mod tag;
mod tags;
#[cfg(test)]
mod tests;

pub use board::{Board, BoardKey, BoardKeys};
pub use changed::Difference;
pub use compare::{difference, difference_by};
pub use family::Family;
pub use fault::InventoryFault;
pub use index_keep::IndexKeep;
pub use item_list::ItemList;
pub use items::list_items;
pub use limits::Totals;
pub use listing::list_all;
pub use moment::Moment;
pub use shown::Shown;
pub use stock::{ItemDifference, Stock};
