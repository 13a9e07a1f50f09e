use thiserror::Error;

/// The pool has fewer free pages than the piece needs.
#[derive(Clone, Copy, Debug, PartialEq, Eq, Error)]
#[error("pool full")]
pub struct PoolFull;
