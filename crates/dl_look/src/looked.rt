use dl_formats::maxseq::MaxSeq;
use dl_formats::segment_name::SegmentName;

/// What a look at a stream told.
#[derive(Clone, Copy, Debug)]
pub struct Looked {
    /// The last of the segments that are listed, where there is one.
    pub last: Option<SegmentName>,
    /// What the node `maxseq` says.
    pub maxseq: MaxSeq,
    /// The version of `maxseq`.
    pub version: u64,
    /// The ledger that the node `alloc` names, where it names one.
    pub old: Option<u64>,
    /// The version of `alloc`.
    pub alloc_version: u64,
}
