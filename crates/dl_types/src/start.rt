use crate::place::Place;
use crate::txid::TxId;

/// Where a reader begins (DistributedLog documentation, "Readers").
#[derive(Clone, Copy, Debug, PartialEq, Eq)]
pub enum Start {
    /// At the stream's point, below which everything was truncated.
    Oldest,
    /// At this place, or at the point where that is above it.
    Place(Place),
    /// At the point, with the records whose ids are at least this one.
    Tx(TxId),
}
