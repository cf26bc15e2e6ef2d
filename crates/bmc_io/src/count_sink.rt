ghost use Rattle.std.specs.Prelude.{◌≡◌, ◌<◌, length, Ok, is_err};
ghost use Rattle.bmc_base.specs.Calls.{HasCause, no_calls};
ghost use Rattle.bmc_io.specs.Told.{added};
ghost use Rattle.bmc_io.specs.Told.Told.{Count};
ghost use Rattle.bmc_io.specs.Sinks.{TakesSome, WriteAdds};
ghost use Rattle.bmc_io.specs.CountSink.{told_by};

use crate::{IoFault, Sink};
use std::marker::Model;

/// A sink that takes all bytes, never fails and keeps only their number, up to the largest `u64`. Once
/// the number would pass it, nothing is told any more.
#[derive(Debug, Drop)]
pub struct CountSink {
    count: Option<u64>,
}

impl Model for CountSink {
    ghost use Rattle.bmc_io.specs.Told.{Told};
    ghost use Rattle.bmc_io.specs.CountSink.{told_by};

    ghost Value = { Told };

    ghost view = { λ s. told_by s.count };
}

impl CountSink {
    /// Returns a sink that took no bytes yet.
    pub fn new() -> CountSink
        ensures { result ≡ Count 0 }
    {
        CountSink { count: Some(0) }
    }

    /// Returns how many bytes were taken, or `None` where there were more than the largest `u64`.
    pub fn count(&self) -> Option<u64>
        ensures { told_by result ≡ self.now }
    {
        self.count
    }
}

impl Sink for CountSink {
    ghost use Rattle.bmc_base.specs.Calls.{no_calls};

    ghost seen = { λ s. record { taken = s; calls = no_calls } };

    fn write(&mut self, piece: &[u8]) -> Result<usize, IoFault>
        requires { 0 < length piece.now }
        ensures bound { TakesSome result piece.now }
        ensures bytes { WriteAdds self.old self.new result piece.now }
        ensures cause { HasCause no_calls no_calls result }
        ensures last { no_calls.last_failed ≡ is_err result }
        ensures answer { result ≡ Ok (length piece.now) }
        ensures told { self.new ≡ added self.old piece.now }
    {
        let more = piece.len() as u64;
        self.count = self.count.and_then(|count| count.checked_add(more));
        Ok(piece.len())
    }
}
