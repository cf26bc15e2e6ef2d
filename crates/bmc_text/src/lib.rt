//! Cuts a script into items, each a line with the block that it asks for, and reads numbers and
//! hexadecimal digits.
#![tactic(auto)]

mod block;
mod buffer;
mod hexadecimal;
mod items;
mod laws;
mod lines;
mod numbers;
#[cfg(test)]
mod tests;
mod words;

pub use block::Block;
pub use hexadecimal::{HexFault, hex_bytes};
pub use items::{Items, NextItem, item_examples};
pub use laws::{numbers_are_read_back, whole_items_stay};
pub use lines::{Got, LineFault, Lines};
pub use numbers::{RAW_DIGITS, decimal, number_examples, read_number, read_raw};
pub use words::block_size;
