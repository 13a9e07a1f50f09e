use thiserror::Error;

/// A call on a file of a depot failed.
#[derive(Clone, Copy, Debug, PartialEq, Eq, Error)]
#[error("device failed")]
pub struct DeviceFault;
