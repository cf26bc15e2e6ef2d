ghost use Rattle.bmc_text.specs.Hex.{GivesBytes, hex_decoded};

use bmc_base::Bytes;
use hex::FromHexError;
use std::alloc::Global;
use thiserror::Error;

/// Why digits give no bytes.
#[derive(Clone, Copy, Debug, PartialEq, Eq, Error)]
pub enum HexFault {
    /// An odd number of digits, or a character that is no hexadecimal digit.
    #[error("not hexadecimal")]
    BadHex,
    /// There was no memory.
    #[error("out of memory")]
    OutOfMemory,
}

/// The bytes of hexadecimal digits, of either case and two for each byte. `BadHex` comes exactly where
/// `hex` decodes nothing. The digits are bytes, since those of a script may be any.
#[tactic(auto, unfolding(crate::specs::Hex::hex_decoded))]
pub fn hex_bytes(alloc: Global, digits: &[u8]) -> Result<Bytes, HexFault>
    ensures { GivesBytes result (hex_decoded digits.now) }
{
    match hex::decode(alloc, digits) {
        Ok(bytes) => Ok(Bytes::from(bytes)),
        Err(FromHexError::OutOfMemory) => Err(HexFault::OutOfMemory),
        Err(_) => Err(HexFault::BadHex),
    }
}
