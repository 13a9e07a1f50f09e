use dl_lread::reader::LedgerReader;
use dl_lrecover::recovery::Recovery;
use dl_requests::segment_end::SegmentEnd;

/// What the task waits for, and what it keeps for what comes behind it.
#[derive(Drop)]
pub enum Stage {
    /// For the segment's node.
    GettingSegment,
    /// For the recovery of the segment's ledger.
    RecoveringLedger {
        ledger: u64,
        recovery: Recovery,
    },
    /// For the last entry of the ledger, which is closed at this count of entries.
    FetchingEnd {
        ledger: u64,
        entries: u64,
        reader: LedgerReader,
    },
    /// For the completion of the segment, which has this end.
    Completing {
        end: SegmentEnd,
    },
    /// For the segment's node once more, since that of its ledger is gone.
    CheckingSegment {
        ledger: u64,
    },
    /// For nothing: it is done or refused.
    Over,
}
