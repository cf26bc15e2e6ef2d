ghost use Rattle.std.specs.Prelude.{◌≡◌};
ghost use Rattle.bmc_base.specs.Calls.{no_calls};

use crate::retry::read_uninterrupted;
use crate::{IoFault, Source};
use bmc_base::Calls;
use std::io::Read;
use std::marker::Model;

/// A source over any reader, as standard input. It counts its faults, and tells what is left as far
/// as the reader does. A read that a signal interrupts is made again, and is no fault.
#[derive(Drop)]
pub struct StdSource<R: Read> {
    reader: R,
    calls: Calls,
}

impl<R: Read> Model for StdSource<R> {
    ghost use Rattle.bmc_io.specs.Sources.{Input};

    ghost Value = { Input };

    ghost view = { λ s. record { left = R.remaining s.reader; calls = s.calls } };
}

impl<R: Read> StdSource<R> {
    /// Returns a source over this reader, with no call made yet.
    pub fn new(reader: R) -> StdSource<R>
        ensures { result ≡ record { left = R.remaining reader; calls = no_calls } }
    {
        StdSource {
            reader,
            calls: Calls::new(),
        }
    }

    /// Returns how many calls failed.
    pub fn faults(&self) -> u64
        ensures { result ≡ self.now.calls.faults }
    {
        self.calls.faults()
    }
}

impl<R: Read> Source for StdSource<R> {
    ghost seen = { λ s. s };

    fn read(&mut self, buf: &mut [u8]) -> Result<usize, IoFault> {
        match read_uninterrupted(&mut self.reader, buf) {
            Ok(count) => {
                self.calls.add_success();
                Ok(count)
            }
            Err(_) => {
                self.calls.add_failure();
                Err(IoFault)
            }
        }
    }
}
