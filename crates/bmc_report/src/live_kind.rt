ghost use Rattle.std.specs.Prelude.{◌≡◌, ◌≤◌, length};
ghost use Rattle.bmc_report.specs.Changes.{kind_text};

/// The kinds of items that may be live.
#[derive(Clone, Copy, Debug, PartialEq, Eq)]
pub enum LiveKind {
    /// A sensor.
    Sensor,
    /// A fan zone.
    Zone,
    /// A fan.
    Fan,
    /// A PID or stepwise controller.
    Controller,
}

impl LiveKind {
    // The word that is printed of a kind.
    #[tactic(auto, unfolding(crate::specs::Changes::kind_text))]
    pub(crate) fn word(self) -> &'static str
        ensures text { result.now ≡ kind_text self }
        ensures short { length result.now ≤ 10 }
    {
        match self {
            LiveKind::Sensor => "sensor",
            LiveKind::Zone => "zone",
            LiveKind::Fan => "fan",
            LiveKind::Controller => "controller",
        }
    }
}
