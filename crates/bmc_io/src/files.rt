ghost use Rattle.std.specs.Prelude.{◌≡◌};
ghost use Rattle.bmc_io.specs.Files.{Folder, ReadsFile};

use bmc_base::{Bytes, OutOfMemory};
use std::alloc::{AllocError, Global};
use std::io;
use std::io::ErrorKind;
use thiserror::Error;

/// What a file holds.
#[derive(Drop)]
pub enum Whole {
    /// All its bytes.
    Given(Bytes),
    /// More bytes than the limit.
    Longer,
}

/// Why a file is not read.
#[derive(Clone, Copy, Debug, PartialEq, Eq, Error)]
pub enum FileFault {
    /// A fault of the outside. A file that does not exist is one.
    #[error("the file can't be read")]
    Failed,
    /// There was no memory.
    #[error("out of memory")]
    OutOfMemory,
}

impl From<OutOfMemory> for FileFault {
    ghost use Rattle.bmc_io.specs.declared.files.FileFault.TheVariants.{OutOfMemory};

    ghost from_gives = { λ _ fault. fault ≡ OutOfMemory };

    fn from(_: OutOfMemory) -> Self {
        FileFault::OutOfMemory
    }
}

impl From<AllocError> for FileFault {
    ghost use Rattle.bmc_io.specs.declared.files.FileFault.TheVariants.{OutOfMemory};

    ghost from_gives = { λ _ fault. fault ≡ OutOfMemory };

    fn from(_: AllocError) -> Self {
        FileFault::OutOfMemory
    }
}

impl From<io::Error> for FileFault {
    ghost use Rattle.std.specs.IoError.{error_kind};
    ghost use Rattle.bmc_io.specs.FileFaults.{fault_of};

    ghost from_gives = { λ error fault. fault ≡ fault_of (error_kind error) };

    fn from(error: io::Error) -> Self {
        match error.kind() {
            ErrorKind::OutOfMemory => FileFault::OutOfMemory,
            _ => FileFault::Failed,
        }
    }
}

/// Where files are.
pub trait Files {
    /// What is seen of the files: what they hold, where they tell it, the calls, and the names that were
    /// answered `Failed`.
    ghost seen: { Self → Folder };

    /// Reads the file with this name, or says that it has more than `limit` bytes. What the files hold
    /// stays as it is. A name that is answered `Failed` joins the list of these names, and the call counts
    /// as a fault; every other answer leaves both as they were.
    fn read_whole(&mut self, alloc: Global, name: &str, limit: usize) -> Result<Whole, FileFault>
        ensures { ReadsFile (seen self.old) (seen self.new) name.now limit result };
}
