ghost use Rattle.std.specs.Prelude.{◌≡◌, ◌<◌, length, is_err};
ghost use Rattle.std.specs.Io.{ReadsAtMost};
ghost use Rattle.std.specs.Io.KnownBytes.{ReadConsumes};
ghost use Rattle.bmc_base.specs.Calls.{HasCause};
ghost use Rattle.bmc_io.specs.Sources.{Input};

use crate::IoFault;

/// Where bytes come from.
pub trait Source {
    /// What is seen of the source: the bytes that are left, where it tells them, and its calls.
    ghost seen: { Self → Input };

    /// Puts the next bytes that are left into `buf`, and returns how many. Returns 0 only where nothing
    /// is left, which is the end. An `Err` counts as a fault, and leaves what is left unchanged.
    fn read(&mut self, buf: &mut [u8]) -> Result<usize, IoFault>
        requires { 0 < length buf.old }
        ensures bound { ReadsAtMost result buf.new }
        ensures bytes { ReadConsumes (seen self.old).left (seen self.new).left result buf.new }
        ensures cause { HasCause (seen self.old).calls (seen self.new).calls result }
        ensures last { (seen self.new).calls.last_failed ≡ is_err result };
}
