//! The core of the controller: takes acts in turn, tells what each of them changes, and keeps a log of it.
#![tactic(auto)]

mod act;
mod acting;
mod asking;
mod board_list;
mod core_state;
mod fault;
mod input_health;
mod lists;
mod logging;
mod senses;
mod state;

pub use act::Act;
pub use core_state::Core;
pub use fault::CoreFault;
