ghost use Rattle.std.specs.Prelude.{◌≡◌, IfOk};
ghost use Rattle.dl_rules_stream.specs.Closes.{closes};
ghost use Rattle.dl_rules_stream.specs.Requests.{CompleteSegment, LeaveLock, op_of};
ghost use Rattle.dl_close.specs.Closing.{args_of};

use dl_requests::ledger_nodes::close_ledger;
use dl_requests::members::leave_lock;
use dl_requests::segment_end::{SegmentEnd, complete_segment};
use dl_types::memory::NoMemory;
use dl_types::meta_op::MetaOp;
use dl_types::name::Name;
use dl_types::path::Path;
use dl_types::quorum::Quorum;
use std::alloc::Global;

/// What the end of a writer is given: the stream, the path of its owner's member of the lock, the end of the segment, how its
/// ledger is replicated, and the version of the ledger's node.
#[derive(Debug, Drop)]
pub(crate) struct CloseGiven {
    pub stream: Name,
    pub member: Path,
    pub end: SegmentEnd,
    pub q: Quorum,
    pub version: u64,
}

impl CloseGiven {
    /// The request that closes the ledger.
    pub(crate) fn close(&self, alloc: Global) -> Result<MetaOp, NoMemory>
        ensures { IfOk result (λ op. op ≡ op_of (closes (args_of self.now))) }
    {
        let end = self.end;
        close_ledger(alloc, end.ledger, self.q, end.entries, self.version)
    }

    /// The request that completes the segment.
    pub(crate) fn complete(&self, alloc: Global) -> Result<MetaOp, NoMemory>
        ensures { IfOk result (λ op.
            op ≡ op_of (CompleteSegment (args_of self.now).completion)) }
    {
        complete_segment(alloc, &self.stream, Some(&self.member), &self.end)
    }

    /// The request that deletes the owner's member of the lock.
    pub(crate) fn leave(&self) -> Result<MetaOp, NoMemory>
        ensures { IfOk result (λ op. op ≡ op_of (LeaveLock self.now.member)) }
    {
        leave_lock(&self.member)
    }
}
