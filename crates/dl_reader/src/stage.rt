use crate::span::Span;
use crate::walk::Walk;
use dl_formats::segment::SegmentMeta;
use dl_formats::segment_name::SegmentName;

/// What a read waits for.
#[derive(Drop)]
pub(crate) enum Stage {
    /// For nothing: none is under way.
    NoRead,
    /// For the list of the segments, and the point.
    ListingCut,
    /// For the node of this segment.
    GettingSegment { segment: SegmentName },
    /// For the node of this segment's ledger.
    GettingLedger { segment: SegmentMeta },
    /// For the count of the entries that can be read.
    Counting { walk: Walk },
    /// For an entry.
    Fetching { walk: Walk, span: Span },
}
