use thiserror::Error;

/// Fewer bytes remain from a place on than the field there has.
#[derive(Clone, Copy, Debug, PartialEq, Eq, Error)]
#[error("the field at {at} is cut short")]
pub struct Short {
    /// The place of the field's first byte, from 0.
    pub at: usize,
}
