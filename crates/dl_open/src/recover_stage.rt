use dl_segrecover::segment_recovery::SegmentRecovery;

/// What the order waits for, and what it keeps for what comes behind it.
#[derive(Drop)]
pub(crate) enum RecoverStage {
    /// For a look at the stream.
    Looking,
    /// For the recovery of the last segment, which has this number.
    Recovering {
        segment: u64,
        recovery: SegmentRecovery,
    },
    /// For nothing: it is done or refused.
    Over,
}
