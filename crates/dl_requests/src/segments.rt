//! Requests on the nodes of a stream's segments.

ghost use Rattle.std.specs.Prelude.{◌≡◌, IfOk};
ghost use Rattle.dl_formats.specs.Keys.{path_of};
ghost use Rattle.dl_rules_stream.specs.Requests.{GetSegment, DropSegment, segment_key, op_of};

use crate::build::multi;
use dl_formats::paths::{completed_path, ledger_path, progress_path};
use dl_formats::segment_name::SegmentName;
use dl_types::memory::NoMemory;
use dl_types::meta_op::MetaOp;
use dl_types::name::Name;
use dl_types::one_op::OneOp;
use dl_types::path::Path;
use std::alloc::Global;

/// The path of a segment's node, by its name.
pub fn segment_path(alloc: Global, stream: &Name, segment: SegmentName) -> Result<Path, NoMemory>
    ensures { IfOk result (λ path. path ≡ path_of (segment_key stream.now segment)) }
{
    match segment {
        SegmentName::Progress { segment } => progress_path(alloc, stream, segment),
        SegmentName::Completed { segment } => completed_path(alloc, stream, segment),
    }
}

/// The request that reads the node of a segment, by its name.
#[tactic(auto, unfolding(dl_rules_stream::specs::Requests::op_of))]
pub fn get_segment(alloc: Global, stream: &Name, segment: SegmentName) -> Result<MetaOp, NoMemory>
    ensures { IfOk result (λ op. op ≡ op_of (GetSegment stream.now segment)) }
{
    let path = segment_path(alloc, stream, segment)?;
    Ok(MetaOp::One(OneOp::Get { path }))
}

/// The request that deletes the node of a completed segment with that of its ledger.
#[tactic(auto, unfolding(dl_rules_stream::specs::Requests::op_of))]
pub fn drop_segment(
    alloc: Global,
    stream: &Name,
    segment: u64,
    ledger: u64,
) -> Result<MetaOp, NoMemory>
    ensures { IfOk result (λ op. op ≡ op_of (DropSegment stream.now segment ledger)) }
{
    let mut ops = Vec::new(alloc);
    ops.push(OneOp::Delete {
        path: completed_path(alloc, stream, segment)?,
        version: None,
    })?;
    ops.push(OneOp::Delete {
        path: ledger_path(alloc, ledger)?,
        version: None,
    })?;
    Ok(multi(ops))
}
