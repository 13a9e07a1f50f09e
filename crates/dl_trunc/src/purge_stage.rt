use dl_formats::segment_name::SegmentName;

/// Which request the task waits for, and what it keeps for the ones behind it.
#[derive(Debug, Drop)]
pub(crate) enum PurgeStage {
    /// That which lists the segments and reads the point.
    Listing,
    /// That which reads this segment's node.
    Getting { segment: SegmentName },
    /// That which deletes this segment's node with that of its ledger.
    Dropping { segment: SegmentName, ledger: u64 },
    /// None: it is done or refused.
    Over,
}
