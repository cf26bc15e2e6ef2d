//! Runs a script over the core: takes its items in turn, and writes what the machine prints of them.
#![tactic(auto)]

mod output;
mod refusing;
mod run;
mod running;
mod stop;

pub use output::flush;
pub use run::Run;
pub use running::run_script;
pub use stop::Stop;
