//! Says in definitions and laws, and without code, what is printed for a script.
#![tactic(auto)]

mod examples;
mod histories;
mod indexes;
mod items;
mod sensors;
mod verdicts;
mod zones;

pub use examples::{
    boards_were_met, files_before_scripts, scripts_with_boards, scripts_with_configs,
    scripts_with_controllers, scripts_with_frus, scripts_with_items, scripts_with_logs,
    scripts_with_sensors,
};
pub use histories::{
    frus_are_few, frus_by_place, histories_are_legal, refused_items_are_idle,
    refused_plugs_are_idle,
};
pub use indexes::{indexes_are_kept, indexes_count};
pub use items::{items_differ, items_stay, limits_hold};
pub use sensors::{idle_steps, sensors_are_told, sensors_settle, sensors_stay, sensors_wait};
pub use verdicts::verdicts_decide;
pub use zones::zones_tick;
