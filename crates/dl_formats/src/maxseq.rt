use dl_types::txid::TxId;

/// What a stream's node `maxseq` holds: its greatest segment, and its greatest transaction id (DistributedLog, the
/// maximum log segment sequence number).
#[derive(Clone, Copy, Debug, PartialEq, Eq)]
pub struct MaxSeq {
    /// The number of the greatest segment that was begun, or 0; it has at most ten digits.
    pub segment: u64,
    /// The greatest transaction id of the segments that are complete, or 0.
    pub last: TxId,
}
