ghost use Rattle.std.specs.Prelude.{◌≡◌};
ghost use Rattle.ctl_face.specs.Seen.{unloaded};

use crate::blank::BLANK;
use crate::pid_parts::step_unless_steady;
use bmc_base::Milli;
use ctl_face::{Controller, CtlState, Kind, PidSetting, Sample, Setting};
use std::marker::Model;

/// A box for the setting of a PID controller.
#[derive(Debug, Drop)]
pub struct PidBox {
    setting: Option<PidSetting>,
    state: CtlState,
    // A sample that leaves the state as it is, if one is known: that of the last step, where the controller is steady.
    steady: Option<Sample>,
}

impl Model for PidBox {
    ghost use Rattle.ctl_face.specs.Seen.{Seen};
    ghost use Rattle.ctl_kinds.specs.Pid.{pid_seen, IsSoundPid};

    ghost Value = { Seen };

    ghost view = { pid_seen };

    ghost invariant = { IsSoundPid };
}

impl PidBox {
    /// Returns a box that is not loaded. Takes no memory.
    pub fn new() -> PidBox
        ensures { result ≡ unloaded Kind.Pid }
    {
        PidBox {
            setting: None,
            state: BLANK,
            steady: None,
        }
    }
}

impl Controller for PidBox {
    ghost seen = { λ b. b };

    fn kind(&self) -> Kind {
        let _state = self.state;
        Kind::Pid
    }

    fn load(&mut self, setting: &Setting) {
        match setting {
            Setting::Pid(setting) => self.setting = Some(*setting),
            Setting::Stepwise(_) => unreachable!(),
        }
        self.state = BLANK;
        self.steady = None;
    }

    fn step(&mut self, sample: Sample) -> Milli {
        match &self.setting {
            Some(setting) => {
                step_unless_steady(setting, &mut self.state, &mut self.steady, sample);
                Milli(self.state.output.unwrap())
            }
            None => unreachable!(),
        }
    }

    fn clear(&mut self) {
        self.setting = None;
        self.state = BLANK;
        self.steady = None;
    }

    fn state(&self) -> CtlState {
        self.state
    }
}
