use crate::next_segment::NextSegment;
use dl_alloc::allocation::Allocation;
use dl_lock::lock::Lock;
use dl_requests::beginnings::SegmentStart;
use dl_segrecover::segment_recovery::SegmentRecovery;
use dl_types::path::Path;

/// What the order waits for, and what it keeps for what comes behind it; the path is that of the owner's member of the lock.
#[derive(Drop)]
pub(crate) enum OpenStage {
    /// For the stream's lock.
    Locking {
        lock: Lock,
    },
    /// For a look at the stream.
    Looking {
        member: Path,
    },
    /// For the recovery of the last segment, which has this number.
    Recovering {
        member: Path,
        segment: u64,
        recovery: SegmentRecovery,
    },
    /// For a ledger of the next segment.
    Allocating {
        member: Path,
        next: NextSegment,
        allocation: Allocation,
    },
    /// For the start of the next segment.
    Starting {
        member: Path,
        start: SegmentStart,
    },
    /// For nothing: it is done or refused.
    Over,
}
