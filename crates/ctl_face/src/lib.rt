//! What a fan controller is: its settings, what one step gives, and the trait that each kind of
//! controller meets.
#![tactic(auto)]

mod controller;
mod kind;
mod law;
mod sample;
mod setting;
mod state;
mod worked;

pub use controller::Controller;
pub use kind::Kind;
pub use law::{floors, outputs_within_limits};
pub use sample::Sample;
pub use setting::{PidClass, PidSetting, Setting, StepRow, StepSetting};
pub use state::CtlState;
pub use worked::{worked_fan, worked_stepwise, worked_temperature};
