use thiserror::Error;

/// A raw number is out of its range, which is -1,000,000,000 to 1,000,000,000.
#[derive(Clone, Copy, Debug, PartialEq, Eq, Error)]
#[error("the raw number is out of range")]
pub struct ReadingRange;
