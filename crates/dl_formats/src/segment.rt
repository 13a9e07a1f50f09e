use dl_types::txid::TxId;

/// A log segment, which its node below a stream's `segs` holds (DistributedLog documentation, "Log segments").
#[derive(Clone, Copy, Debug, PartialEq, Eq)]
pub enum SegmentMeta {
    /// A writer may still add to the segment.
    InProgress {
        /// The segment's number, from 1; it has at most ten digits.
        segment: u64,
        /// The number of the ledger that stores it; it has at most ten digits.
        ledger: u64,
    },
    /// The segment is complete.
    Completed {
        /// The segment's number, from 1; it has at most ten digits.
        segment: u64,
        /// The number of the ledger that stores it; it has at most ten digits.
        ledger: u64,
        /// How many entries it has.
        entries: u64,
        /// How many records its users wrote.
        rows: u64,
        /// The transaction id of its last record.
        last: TxId,
    },
}
