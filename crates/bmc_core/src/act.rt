use bmc_base::{Ledger, Place};
use cfg_json::Config;

/// What may happen.
#[derive(Drop)]
pub enum Act<'a, L: Ledger> {
    /// A configuration comes behind the others.
    Config(Config<L>),
    /// A FRU with these bytes appears at a place.
    Plug(Place, &'a [u8]),
    /// The FRU at a place goes away.
    Unplug(Place),
    /// The sensor of this name was read, and this is the raw number.
    Good(&'a str, i64),
    /// A reading of the sensor of this name was lost.
    Lost(&'a str),
    /// A tick of 100 milliseconds passes.
    Tick,
}
