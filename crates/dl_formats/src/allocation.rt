/// What a stream's node `alloc` holds: the ledger that was created for its next segment, where one was (DistributedLog,
/// the ledger allocator).
#[derive(Clone, Copy, Debug, PartialEq, Eq)]
pub struct Alloc {
    /// The number of the ledger; it has at most ten digits.
    pub ledger: Option<u64>,
}
