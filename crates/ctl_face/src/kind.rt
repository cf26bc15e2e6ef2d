ghost use Rattle.std.specs.Prelude.{◌≡◌, ◌↔◌, IsTrue};
ghost use Rattle.ctl_face.specs.Kinds.{kind_eq};

/// What a controller computes.
#[derive(Clone, Copy, Debug, PartialEq, Eq)]
pub enum Kind {
    /// Proportional, integral and derivative control.
    Pid,
    /// Outputs by steps of the reading.
    Stepwise,
}

impl Kind {
    /// Whether the kinds are the same.
    pub fn is(self, other: Kind) -> bool
        ensures test { result ≡ kind_eq self other }
        ensures same { IsTrue result ↔ (self ≡ other) }
    {
        self == other
    }
}
