ghost use Rattle.std.specs.Prelude.{◌≡◌};
ghost use Rattle.bmc_run.specs.declared.stop.Stop.TheVariants.{OutOfMemory, WriteFault};

use bmc_io::{FileFault, IoFault};
use bmc_text::LineFault;

/// Why a run stops before the script's end.
#[derive(Clone, Copy, Debug, PartialEq, Eq)]
pub enum Stop {
    /// There was no memory.
    OutOfMemory,
    /// The source, or a file, failed.
    ReadFault,
    /// The sink failed.
    WriteFault,
    /// 2^40 bytes of the script were taken.
    TooLong,
}

impl From<bmc_base::OutOfMemory> for Stop {
    ghost from_gives = { λ _ e. e ≡ OutOfMemory };

    fn from(_: bmc_base::OutOfMemory) -> Self {
        Stop::OutOfMemory
    }
}

impl From<IoFault> for Stop {
    ghost from_gives = { λ _ e. e ≡ WriteFault };

    fn from(_: IoFault) -> Self {
        Stop::WriteFault
    }
}

impl From<LineFault> for Stop {
    ghost use Rattle.bmc_run.specs.Statuses.{stop_of};

    ghost from_gives = { λ f e. e ≡ stop_of f };

    fn from(fault: LineFault) -> Self {
        match fault {
            LineFault::ReadFault => Stop::ReadFault,
            LineFault::Spent => Stop::TooLong,
            LineFault::OutOfMemory => Stop::OutOfMemory,
        }
    }
}

impl From<FileFault> for Stop {
    ghost use Rattle.bmc_run.specs.Stops.{stop_of_file};

    ghost from_gives = { λ f e. e ≡ stop_of_file f };

    fn from(fault: FileFault) -> Self {
        match fault {
            FileFault::Failed => Stop::ReadFault,
            FileFault::OutOfMemory => Stop::OutOfMemory,
        }
    }
}
