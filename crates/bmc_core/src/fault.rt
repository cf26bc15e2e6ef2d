use bmc_report::Refusal;
use thiserror::Error;

/// Why an act was not done.
#[derive(Clone, Copy, Debug, PartialEq, Eq, Error)]
pub enum CoreFault {
    /// It is refused. The core is as it was, but for the last changes, of which there are none then, and for its log, where a
    /// refused plug is noted.
    #[error("refused")]
    Refused(Refusal),
    /// There was no memory. The core is as it was.
    #[error("out of memory")]
    OutOfMemory,
}
