//! Watches the bus: takes configurations and FRUs that come and go, tells what changes, and settles the live sensors.
#![tactic(auto)]

mod changes;
mod listing;
mod panel;
mod readings;
mod refusing;
mod watch;

pub use panel::Panel;
pub use readings::Glimpse;
pub use watch::Watch;
