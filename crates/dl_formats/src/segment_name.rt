/// What the name of a child of a stream's node `segs` says of a segment.
#[derive(Clone, Copy, Debug, PartialEq, Eq)]
pub enum SegmentName {
    /// The segment of this number is in progress: `p` and ten digits.
    Progress { segment: u64 },
    /// The segment of this number is complete: `c` and ten digits.
    Completed { segment: u64 },
}
