//! Appends what is printed to a text: refused lines, changes, and the rows of lists.
#![tactic(auto)]

mod board;
mod board_row;
mod change;
mod change_line;
mod decimal;
mod examples;
mod line;
mod live_kind;
mod log_row;
mod milli;
mod place;
mod quoted;
mod refusal;
mod row;
mod sensor_row;
#[cfg(test)]
mod tests;
mod topic;
mod zone_row;

pub use board_row::{ItemRow, push_board_row, push_index_row, push_item_row};
pub use change::Change;
pub use change_line::{change_text, push_change};
pub use examples::printed_texts;
pub use live_kind::LiveKind;
pub use log_row::push_log_row;
pub use refusal::{Origin, Refusal, push_refused_line, refusal_text};
pub use row::push_fru_row;
pub use sensor_row::{SensorRow, push_sensor_row};
pub use topic::Topic;
pub use zone_row::{push_fan_row, push_zone_row};
