ghost use Rattle.std.specs.Prelude.{◌≡◌, ◌<◌, length, is_err};
ghost use Rattle.bmc_base.specs.Calls.{HasCause};
ghost use Rattle.bmc_io.specs.Sinks.{Output, TakesSome, WriteAdds};

use crate::IoFault;

/// Where bytes go.
pub trait Sink {
    /// What is seen of the sink: what it tells of the bytes that it took, and its calls.
    ghost seen: { Self → Output };

    /// Takes bytes from the front of `piece`, at least one, and returns how many. A sink that takes
    /// nothing returns `Err`, which counts as a fault.
    fn write(&mut self, piece: &[u8]) -> Result<usize, IoFault>
        requires { 0 < length piece.now }
        ensures bound { TakesSome result piece.now }
        ensures bytes { WriteAdds (seen self.old).taken (seen self.new).taken result piece.now }
        ensures cause { HasCause (seen self.old).calls (seen self.new).calls result }
        ensures last { (seen self.new).calls.last_failed ≡ is_err result };
}
