ghost use Rattle.std.specs.Prelude.{◌≡◌, IsSome, Some};
ghost use Rattle.ctl_face.specs.Kinds.{kind_of};
ghost use Rattle.ctl_face.specs.Ranges.{IsMilli, IsValid, IsValidSample};
ghost use Rattle.ctl_face.specs.Seen.{Seen, loaded, stepped, unloaded};

use crate::{CtlState, Kind, Sample, Setting};
use bmc_base::Milli;

/// A controller, whoever makes it. No call takes memory.
pub trait Controller: Drop {
    /// What is seen of the controller: its kind, the setting that is loaded, and its state.
    ghost seen: { Self → Seen };

    /// Returns its kind, which never changes.
    fn kind(&self) -> Kind
        ensures { result ≡ (seen self.now).kind };

    /// Loads a valid setting of its kind, and forgets what was there before, its state too.
    fn load(&mut self, setting: &Setting)
        requires kind { kind_of setting.now ≡ (seen self.old).kind }
        requires valid { IsValid setting.now }
        ensures { seen self.new ≡ loaded (seen self.old) setting.now };

    /// Makes one step of the loaded setting from a valid sample, and returns the output.
    fn step(&mut self, sample: Sample) -> Milli
        requires loaded { IsSome (seen self.old).setting }
        requires valid { IsValidSample sample }
        ensures state { seen self.new ≡ stepped (seen self.old) sample }
        ensures output { Some result.0 ≡ (seen self.new).state.output }
        ensures range { IsMilli result.0 };

    /// Forgets the setting and the state.
    fn clear(&mut self)
        ensures { seen self.new ≡ unloaded (seen self.old).kind };

    /// Returns its state.
    fn state(&self) -> CtlState
        ensures { result ≡ (seen self.now).state };
}

/// A box is the controller in it.
impl Controller for Box<dyn Controller> {
    ghost seen = { λ b. (Controller-box b).seen b.value };

    fn kind(&self) -> Kind {
        (**self).kind()
    }

    fn load(&mut self, setting: &Setting) {
        (**self).load(setting)
    }

    fn step(&mut self, sample: Sample) -> Milli {
        (**self).step(sample)
    }

    fn clear(&mut self) {
        (**self).clear()
    }

    fn state(&self) -> CtlState {
        (**self).state()
    }
}
