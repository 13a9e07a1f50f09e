ghost use Rattle.std.specs.Prelude.{◌≡◌, IfOk, None};
ghost use Rattle.dl_formats.specs.NodeBytes.{segment_bytes};
ghost use Rattle.dl_formats.specs.declared.segment.SegmentMeta.TheVariants as meta;
ghost use Rattle.dl_rules_stream.specs.Requests.{StartSegment, alloc_node, maxseq_node, op_of};
ghost use Rattle.dl_requests.specs.Beginnings.{beginning_by};

use crate::build::{lasting, multi, set};
use dl_formats::allocation::Alloc;
use dl_formats::encode::{encode_alloc, encode_maxseq, encode_segment};
use dl_formats::maxseq::MaxSeq;
use dl_formats::paths::{alloc_path, ledger_path, maxseq_path, progress_path};
use dl_formats::segment::SegmentMeta;
use dl_types::memory::NoMemory;
use dl_types::meta_op::MetaOp;
use dl_types::name::Name;
use dl_types::one_op::OneOp;
use dl_types::path::Path;
use dl_types::txid::TxId;
use std::alloc::Global;

/// The start of a segment, with what was read of its stream's nodes `maxseq` and `alloc`.
#[derive(Clone, Copy, Debug)]
pub struct SegmentStart {
    /// The segment's number.
    pub segment: u64,
    /// The number of the ledger that is to store it.
    pub ledger: u64,
    /// The greatest transaction id before it.
    pub last: TxId,
    /// The version of `maxseq`.
    pub version: u64,
    /// The version of `alloc`.
    pub alloc_version: u64,
}

impl SegmentStart {
    /// The bytes of the segment's node while it is in progress.
    fn node(&self, alloc: Global) -> Result<Vec<u8>, NoMemory>
        ensures { IfOk result (λ bytes. bytes.items
            ≡ segment_bytes (meta.InProgress self.now.segment self.now.ledger)) }
    {
        let meta = SegmentMeta::InProgress {
            segment: self.segment,
            ledger: self.ledger,
        };
        encode_segment(alloc, &meta)
    }

    /// The bytes of `maxseq` once the segment has begun.
    fn maxseq(&self, alloc: Global) -> Result<Vec<u8>, NoMemory>
        ensures { IfOk result (λ bytes.
            bytes.items ≡ maxseq_node self.now.segment self.now.last) }
    {
        let maxseq = MaxSeq {
            segment: self.segment,
            last: self.last,
        };
        encode_maxseq(alloc, &maxseq)
    }
}

/// The bytes of a node `alloc` that names no ledger.
fn no_ledger(alloc: Global) -> Result<Vec<u8>, NoMemory>
    ensures { IfOk result (λ bytes. bytes.items ≡ alloc_node None) }
{
    encode_alloc(alloc, &Alloc { ledger: None })
}

/// The request that starts a segment: `maxseq` names it, the node of the segment in progress is made, and `alloc` names its
/// ledger no more, which has to be as it was made. The owner's member of the lock has to be there (DistributedLog
/// documentation, "Log segments").
#[tactic(auto, unfolding(dl_rules_stream::specs::Requests::op_of))]
pub fn start_segment(
    alloc: Global,
    stream: &Name,
    member: &Path,
    start: &SegmentStart,
) -> Result<MetaOp, NoMemory>
    ensures { IfOk result (λ op. op ≡ op_of (StartSegment
        (beginning_by stream.now member.now start.now))) }
{
    let mut ops = Vec::new(alloc);
    ops.push(OneOp::Check {
        path: member.share()?,
        version: None,
    })?;
    ops.push(set(
        maxseq_path(alloc, stream)?,
        start.maxseq(alloc)?,
        start.version,
    )?)?;
    ops.push(lasting(
        progress_path(alloc, stream, start.segment)?,
        start.node(alloc)?,
    )?)?;
    ops.push(OneOp::Check {
        path: ledger_path(alloc, start.ledger)?,
        version: Some(0),
    })?;
    ops.push(set(
        alloc_path(alloc, stream)?,
        no_ledger(alloc)?,
        start.alloc_version,
    )?)?;
    Ok(multi(ops))
}
