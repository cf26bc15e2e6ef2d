ghost use Rattle.std.specs.Prelude.{◌≡◌};
ghost use Rattle.fru_area.specs.declared.fault.FruFault.TheVariants.{OutOfMemory};

use std::alloc::{AllocError, AllocFailed};
use thiserror::Error;

/// An information area of a record (FRU definition 1.0, sections 10 to 12).
#[derive(Clone, Copy, Debug, PartialEq, Eq)]
pub enum Area {
    /// The chassis information area (section 10).
    Chassis,
    /// The board information area (section 11).
    Board,
    /// The product information area (section 12).
    Product,
}

/// Why bytes are no FRU record: the first rule that they break, or want of memory.
#[derive(Clone, Copy, Debug, PartialEq, Eq, Error)]
pub enum FruFault {
    /// Fewer than 8 bytes.
    #[error("a FRU record has at least 8 bytes")]
    FruShort,
    /// More than 4,096 bytes.
    #[error("a FRU record has at most 4,096 bytes")]
    FruTooLong,
    /// Byte 0 is not the format version 01h.
    #[error("the header's version is not 01h")]
    HeaderVersion,
    /// The 8 bytes of the header do not sum to zero.
    #[error("the header's sum is not zero")]
    HeaderChecksum,
    /// The area reaches past the end of the bytes.
    #[error("the {0:?} area reaches past the end")]
    AreaOutside(Area),
    /// The area's byte 0 is not the format version 01h.
    #[error("the {0:?} area's version is not 01h")]
    AreaVersion(Area),
    /// The area's length is zero.
    #[error("the {0:?} area's length is zero")]
    AreaLength(Area),
    /// The bytes of the area do not sum to zero.
    #[error("the {0:?} area's sum is not zero")]
    AreaChecksum(Area),
    /// A field takes in the area's checksum.
    #[error("a field of the {0:?} area reaches its checksum")]
    FieldOutside(Area),
    /// The checksum stands where a field or the end mark C1h should begin.
    #[error("the fields of the {0:?} area have no end mark")]
    NoEnd(Area),
    /// There was no memory. It says nothing of the bytes.
    #[error("out of memory")]
    OutOfMemory,
}

impl From<AllocError> for FruFault {
    ghost from_gives = { λ _ e. e ≡ OutOfMemory };

    fn from(_: AllocError) -> Self {
        FruFault::OutOfMemory
    }
}

impl From<bmc_base::OutOfMemory> for FruFault {
    ghost from_gives = { λ _ e. e ≡ OutOfMemory };

    fn from(_: bmc_base::OutOfMemory) -> Self {
        FruFault::OutOfMemory
    }
}

impl<T: Drop> From<AllocFailed<T>> for FruFault {
    ghost from_gives = { λ _ e. e ≡ OutOfMemory };

    fn from(_: AllocFailed<T>) -> Self {
        FruFault::OutOfMemory
    }
}
