use thiserror::Error;

/// Why a commit did not succeed.
#[derive(Clone, Copy, Debug, PartialEq, Eq, Error)]
pub enum CommitFault {
    /// A call on the device failed: the batch may be in force or not, and the journal takes no more commits.
    #[error("device failed")]
    Device,
    /// An earlier commit failed. No call was made.
    #[error("journal failed before")]
    Failed,
}
