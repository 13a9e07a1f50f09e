ghost use Rattle.std.specs.Prelude.{◌≡◌, IfOk};
ghost use Rattle.std.specs.Option.{option_copied};
ghost use Rattle.dl_formats.specs.NodeBytes.{segment_bytes};
ghost use Rattle.dl_formats.specs.declared.segment.SegmentMeta.TheVariants as meta;
ghost use Rattle.dl_rules_stream.specs.Requests.{CompleteSegment, checks_member, maxseq_node, op_of};
ghost use Rattle.dl_requests.specs.Completions.{completion_by};

use crate::build::{lasting, multi, set};
use dl_formats::encode::{encode_maxseq, encode_segment};
use dl_formats::maxseq::MaxSeq;
use dl_formats::paths::{completed_path, maxseq_path, progress_path};
use dl_formats::segment::SegmentMeta;
use dl_types::memory::NoMemory;
use dl_types::meta_op::MetaOp;
use dl_types::name::Name;
use dl_types::one_op::OneOp;
use dl_types::path::Path;
use dl_types::txid::TxId;
use std::alloc::Global;

/// The end of a segment, with what was read of its stream's node `maxseq`.
#[derive(Clone, Copy, Debug)]
pub struct SegmentEnd {
    /// The segment's number.
    pub segment: u64,
    /// The number of the ledger that stores it.
    pub ledger: u64,
    /// How many entries it has.
    pub entries: u64,
    /// How many records its users wrote.
    pub rows: u64,
    /// The transaction id of its last record.
    pub last: TxId,
    /// The greatest segment that `maxseq` names.
    pub greatest: u64,
    /// The version of `maxseq`.
    pub version: u64,
}

impl SegmentEnd {
    /// The bytes of the segment's node, once it is complete.
    fn node(&self, alloc: Global) -> Result<Vec<u8>, NoMemory>
        ensures { IfOk result (λ bytes. bytes.items ≡ segment_bytes (meta.Completed self.now.segment
            self.now.ledger self.now.entries self.now.rows self.now.last)) }
    {
        let meta = SegmentMeta::Completed {
            segment: self.segment,
            ledger: self.ledger,
            entries: self.entries,
            rows: self.rows,
            last: self.last,
        };
        encode_segment(alloc, &meta)
    }

    /// The bytes of `maxseq` behind the segment.
    fn maxseq(&self, alloc: Global) -> Result<Vec<u8>, NoMemory>
        ensures { IfOk result (λ bytes.
            bytes.items ≡ maxseq_node self.now.greatest self.now.last) }
    {
        let maxseq = MaxSeq {
            segment: self.greatest,
            last: self.last,
        };
        encode_maxseq(alloc, &maxseq)
    }
}

/// The operations with which a completion begins: where there is a member of the stream's lock, it has to be there.
fn checks_member(alloc: Global, member: Option<&Path>) -> Result<Vec<OneOp>, NoMemory>
    ensures { IfOk result (λ ops. ops.items ≡ checks_member (option_copied member.entry)) }
{
    let mut ops = Vec::new(alloc);
    if let Some(member) = member {
        ops.push(OneOp::Check {
            path: member.share()?,
            version: None,
        })?;
    }
    Ok(ops)
}

/// The request that completes a segment: the node of the segment in progress gives way to that of the completed one, and
/// `maxseq` names its last transaction id. Where there is a member of the stream's lock, it has to be there (DistributedLog
/// documentation, "Log segments").
#[tactic(auto, unfolding(dl_rules_stream::specs::Requests::op_of))]
pub fn complete_segment(
    alloc: Global,
    stream: &Name,
    member: Option<&Path>,
    end: &SegmentEnd,
) -> Result<MetaOp, NoMemory>
    ensures { IfOk result (λ op. op ≡ op_of (CompleteSegment
        (completion_by stream.now (option_copied member.entry) end.now))) }
{
    let mut ops = checks_member(alloc, member)?;
    ops.push(OneOp::Delete {
        path: progress_path(alloc, stream, end.segment)?,
        version: Some(0),
    })?;
    ops.push(lasting(
        completed_path(alloc, stream, end.segment)?,
        end.node(alloc)?,
    )?)?;
    ops.push(set(maxseq_path(alloc, stream)?, end.maxseq(alloc)?, end.version)?)?;
    Ok(multi(ops))
}
