use thiserror::Error;

/// The numbers break the rule of a quorum: 16 >= ensemble >= write quorum >= ack quorum >= 1.
#[derive(Clone, Copy, Debug, PartialEq, Eq, Error)]
#[error("bad quorum")]
pub struct BadQuorum;
