//! Reads configurations in JSON, with the probes by which they are found and what they expose, and lists
//! them in their order.
#![tactic(auto)]

mod boxed;
mod channels;
mod config;
mod config_fault;
mod controls;
mod counts;
mod document;
mod draft;
mod expose;
mod exposes;
mod fraction;
mod item;
mod law;
mod names;
mod pids;
mod probe_texts;
mod sensors;
mod shared;
mod shelf;
mod stepwises;
mod template_names;
mod values;

pub use boxed::Boxed;
pub use config::Config;
pub use config_fault::ConfigFault;
pub use counts::Counts;
pub use expose::{Body, ControlPart, Expose, Exposes, MuxPart, SensorPart, Templates, ZoneSetting};
pub use item::{ControlItem, Item, ItemId, ItemPart, MuxItem, SensorItem};
pub use law::{answers_are_verdicts, controls_are_valid, settings_are_valid};
pub use names::Names;
pub use shared::Shared;
pub use shelf::{MOST_CONFIGS, Shelf};
