ghost use Rattle.std.specs.Prelude.{◌≡◌};

use crate::Refusal;
use crate::live_kind::LiveKind;
use bmc_base::{Milli, Name, Place};

/// What an event changed.
#[derive(Drop)]
pub enum Change {
    /// A board is gone or new.
    Board {
        /// Whether it is gone, and not new.
        gone: bool,
        /// The name of its configuration.
        name: Name,
        /// Its number among the boards of that configuration, from 1.
        index: u32,
        /// The place of the FRU that it was found by, if it was found by one.
        place: Option<Place>,
    },
    /// A live item is gone or new.
    Item {
        /// Whether it is gone, and not new.
        gone: bool,
        /// Its kind.
        kind: LiveKind,
        /// Its name.
        name: Name,
    },
    /// A poller ended to read a sensor that was gone in between, so that nothing was read.
    Stale {
        /// The name of the sensor when the poller began.
        name: Name,
    },
    /// A sensor failed, or works again.
    Failure {
        /// Whether it failed, and does not work again.
        failed: bool,
        /// Its name.
        name: Name,
    },
    /// An alarm of a sensor went on or off.
    Alarm {
        /// Whether it went on, and not off.
        on: bool,
        /// The name of the sensor.
        name: Name,
        /// The position of its limit among those of the sensor, from 0.
        position: u8,
        /// Whether it is on at high values, and not at low ones.
        high: bool,
        /// Whether it is critical, and not a warning.
        critical: bool,
    },
    /// A fan zone went into failsafe, or is normal again.
    Zone {
        /// Whether it went into failsafe, and is not normal again.
        failsafe: bool,
        /// Its name.
        name: Name,
    },
    /// The duty of a fan changed.
    Duty {
        /// The name of the fan.
        name: Name,
        /// Its duty now, in thousandths of a percent.
        duty: Milli,
    },
    /// A FRU was refused. Only a log has such a change.
    PlugRefused {
        /// The place of the FRU.
        place: Place,
        /// Why it was refused.
        refusal: Refusal,
    },
}

impl Change {
    /// Returns an equal change. It takes no memory. It is not inlined: where it is, a change is put together of small pieces on the
    /// stack, and what then moves it waits for each of them.
    #[inline(never)]
    pub fn copied(&self) -> Change
        ensures { result ≡ self.now }
    {
        match self {
            Change::Board {
                gone,
                name,
                index,
                place,
            } => Change::Board {
                gone: *gone,
                name: name.copied(),
                index: *index,
                place: *place,
            },
            Change::Item { gone, kind, name } => Change::Item {
                gone: *gone,
                kind: *kind,
                name: name.copied(),
            },
            Change::Stale { name } => Change::Stale {
                name: name.copied(),
            },
            Change::Failure { failed, name } => Change::Failure {
                failed: *failed,
                name: name.copied(),
            },
            Change::Alarm {
                on,
                name,
                position,
                high,
                critical,
            } => Change::Alarm {
                on: *on,
                name: name.copied(),
                position: *position,
                high: *high,
                critical: *critical,
            },
            Change::Zone { failsafe, name } => Change::Zone {
                failsafe: *failsafe,
                name: name.copied(),
            },
            Change::Duty { name, duty } => Change::Duty {
                name: name.copied(),
                duty: *duty,
            },
            Change::PlugRefused { place, refusal } => Change::PlugRefused {
                place: *place,
                refusal: *refusal,
            },
        }
    }
}
