ghost use Rattle.std.specs.Prelude.{◌≡◌};
ghost use Rattle.fru_area.specs.Headers.{checksum, header};

use crate::FruFault;

/// The version of the format, and of each area.
pub(crate) const FORMAT_VERSION: u8 = 1;

// The bytes of a common header, and so of the shortest record.
const HEADER_LEN: usize = 8;

/// The most bytes of a record.
pub const LONGEST_RECORD: usize = 4096;

/// Offsets and lengths of areas count units of so many bytes (FRU definition 1.0, section 8).
pub const UNIT: usize = 8;

/// Where the areas begin, in multiples of 8 bytes from the front of the record; 0 where an area is absent
/// (FRU definition 1.0, section 8).
#[derive(Clone, Copy, Debug, PartialEq, Eq)]
pub struct Header {
    /// The chassis information area (section 10).
    pub chassis: u8,
    /// The board information area (section 11).
    pub board: u8,
    /// The product information area (section 12).
    pub product: u8,
    /// The multirecord area, of which nothing is read here.
    pub multi: u8,
}

/// Sums the bytes modulo 256. The sum is zero over a header or an area with its checksum (FRU definition
/// 1.0, sections 8 and 10 to 12).
pub fn area_sum(bytes: &[u8]) -> u8
    ensures { result ≡ checksum bytes.now }
{
    let mut sum: u8 = 0;
    for byte in bytes {
        sum = sum.wrapping_add(*byte);
    }
    sum
}

/// Returns the common header of a record (FRU definition 1.0, section 8), or the first of its rules that
/// is broken: `FruShort`, `FruTooLong`, `HeaderVersion`, `HeaderChecksum`. It takes no memory.
#[tactic(auto, unfolding(crate::specs::Headers::header))]
pub fn read_header(bytes: &[u8]) -> Result<Header, FruFault>
    ensures { result ≡ header bytes.now }
{
    if bytes.len() < HEADER_LEN {
        return Err(FruFault::FruShort);
    }
    if bytes.len() > LONGEST_RECORD {
        return Err(FruFault::FruTooLong);
    }
    if bytes[0] != FORMAT_VERSION {
        return Err(FruFault::HeaderVersion);
    }
    if area_sum(&bytes[..HEADER_LEN]) != 0 {
        return Err(FruFault::HeaderChecksum);
    }
    Ok(Header {
        chassis: bytes[2],
        board: bytes[3],
        product: bytes[4],
        multi: bytes[5],
    })
}
