use thiserror::Error;

/// A fault of the outside.
#[derive(Clone, Copy, Debug, PartialEq, Eq, Error)]
#[error("input or output failed")]
pub struct IoFault;
