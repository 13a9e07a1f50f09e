use dl_types::txid::TxId;

/// The next segment of a stream, before it has a ledger.
#[derive(Clone, Copy, Debug)]
pub(crate) struct NextSegment {
    /// Its number.
    pub segment: u64,
    /// The greatest transaction id before it.
    pub last: TxId,
    /// The version of the stream's node `maxseq`.
    pub version: u64,
}
