ghost use Rattle.std.specs.Prelude.{◌≡◌, ◌<◌, length, is_err};
ghost use Rattle.std.specs.Io.KnownBytes.{WriteAppends};
ghost use Rattle.bmc_base.specs.Calls.{HasCause, no_calls};
ghost use Rattle.bmc_io.specs.Told.Told.{Nothing};
ghost use Rattle.bmc_io.specs.Sinks.{TakesSome, WriteAdds};

use crate::retry::write_uninterrupted;
use crate::{IoFault, Sink};
use bmc_base::Calls;
use std::io::Write;
use std::marker::Model;

/// A sink over any writer, as standard output. It counts its faults; a write that takes nothing is
/// one. A write that a signal interrupts is made again, and is no fault. As a `Sink` it tells nothing of
/// what it took; its own `write` says what the writer holds, as far as the writer tells.
#[derive(Drop)]
pub struct StdSink<W: Write> {
    writer: W,
    calls: Calls,
}

impl<W: Write> Model for StdSink<W> {
    ghost use Rattle.bmc_io.specs.StdSink.{WriterOutput};

    ghost Value = { WriterOutput };

    ghost view = { λ s. record { contents = W.contents s.writer; calls = s.calls } };
}

impl<W: Write> StdSink<W> {
    /// Returns a sink over this writer, with no call made yet.
    pub fn new(writer: W) -> StdSink<W>
        ensures { result ≡ record { contents = W.contents writer; calls = no_calls } }
    {
        StdSink {
            writer,
            calls: Calls::new(),
        }
    }

    /// Returns how many calls failed.
    pub fn faults(&self) -> u64
        ensures { result ≡ self.now.calls.faults }
    {
        self.calls.faults()
    }
}

impl<W: Write> Sink for StdSink<W> {
    ghost use Rattle.bmc_io.specs.Told.Told.{Nothing};

    ghost seen = { λ s. record { taken = Nothing; calls = s.calls } };

    fn write(&mut self, piece: &[u8]) -> Result<usize, IoFault>
        requires { 0 < length piece.now }
        ensures bound { TakesSome result piece.now }
        ensures bytes { WriteAdds Nothing Nothing result piece.now }
        ensures cause { HasCause self.old.calls self.new.calls result }
        ensures last { self.new.calls.last_failed ≡ is_err result }
        ensures writer { WriteAppends self.old.contents self.new.contents result piece.now }
    {
        match write_uninterrupted(&mut self.writer, piece) {
            Ok(count) if count > 0 => {
                self.calls.add_success();
                Ok(count)
            }
            _ => {
                self.calls.add_failure();
                Err(IoFault)
            }
        }
    }
}
