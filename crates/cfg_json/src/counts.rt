ghost use Rattle.std.specs.Prelude.{◌≡◌};
ghost use Rattle.cfg_json.specs.Configs.{counts_of};

use crate::{Body, Expose};
use ctl_face::Kind;

/// How many exposes of each kind a configuration has.
#[derive(Clone, Copy, Debug, PartialEq, Eq)]
pub struct Counts {
    /// How many are sensors.
    pub sensors: usize,
    /// How many are zones.
    pub zones: usize,
    /// How many are fans.
    pub fans: usize,
    /// How many are PID controllers.
    pub pids: usize,
    /// How many are stepwise controllers.
    pub steps: usize,
}

impl Counts {
    /// Counts exposes.
    pub fn of(exposes: &[Expose]) -> Counts
        ensures { result ≡ counts_of exposes.now }
    {
        let mut counts = Counts {
            sensors: 0,
            zones: 0,
            fans: 0,
            pids: 0,
            steps: 0,
        };
        for expose in exposes {
            match &expose.body {
                Body::Sensor(_) => counts.sensors += 1,
                Body::Zone(_) => counts.zones += 1,
                Body::Fan => counts.fans += 1,
                Body::Control(part) => match part.get().setting.kind() {
                    Kind::Pid => counts.pids += 1,
                    Kind::Stepwise => counts.steps += 1,
                },
                Body::Mux(_) | Body::Passive => {}
            }
        }
        counts
    }
}
