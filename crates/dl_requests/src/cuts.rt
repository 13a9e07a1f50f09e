//! Requests on a stream's node `cut`, with the list of its segments beside it (DistributedLog documentation, "Truncation").

ghost use Rattle.std.specs.Prelude.{◌≡◌, ◌∷◌, [], IfOk};
ghost use Rattle.dl_types.specs.declared.one_op.OneOp.TheVariants.{Children, Get};
ghost use Rattle.dl_formats.specs.Keys as key;
ghost use Rattle.dl_rules_stream.specs.Requests.{ListCut, LookCut, SetCut, op_of};

use crate::build::{multi, set};
use dl_formats::cut::Cut;
use dl_formats::encode::encode_cut;
use dl_formats::paths::{cut_path, maxseq_path, segs_path};
use dl_types::dlsn::Dlsn;
use dl_types::memory::NoMemory;
use dl_types::meta_op::MetaOp;
use dl_types::name::Name;
use dl_types::one_op::OneOp;
use std::alloc::Global;

/// The operations that list a stream's segments and read its point.
fn list_and_point(alloc: Global, stream: &Name) -> Result<Vec<OneOp>, NoMemory>
    ensures { IfOk result (λ ops. ops.items ≡ Children (key.path_of (key.Segs stream.now))
        ∷ Get (key.path_of (key.Cut stream.now)) ∷ []) }
{
    let mut ops = Vec::new(alloc);
    ops.push(OneOp::Children {
        path: segs_path(alloc, stream)?,
    })?;
    ops.push(OneOp::Get {
        path: cut_path(alloc, stream)?,
    })?;
    Ok(ops)
}

/// The request that lists a stream's segments and reads its point.
#[tactic(auto, unfolding(dl_rules_stream::specs::Requests::op_of))]
pub fn list_cut(alloc: Global, stream: &Name) -> Result<MetaOp, NoMemory>
    ensures { IfOk result (λ op. op ≡ op_of (ListCut stream.now)) }
{
    let ops = list_and_point(alloc, stream)?;
    Ok(multi(ops))
}

/// The request that lists a stream's segments, and reads its point and its greatest segment.
#[tactic(auto, unfolding(dl_rules_stream::specs::Requests::op_of))]
pub fn look_cut(alloc: Global, stream: &Name) -> Result<MetaOp, NoMemory>
    ensures { IfOk result (λ op. op ≡ op_of (LookCut stream.now)) }
{
    let mut ops = list_and_point(alloc, stream)?;
    ops.push(OneOp::Get {
        path: maxseq_path(alloc, stream)?,
    })?;
    Ok(multi(ops))
}

/// The request that sets a stream's point, where its node has this version.
#[tactic(auto, unfolding(dl_rules_stream::specs::Requests::op_of))]
pub fn set_cut(alloc: Global, stream: &Name, point: Dlsn, version: u64) -> Result<MetaOp, NoMemory>
    ensures { IfOk result (λ op. op ≡ op_of (SetCut stream.now point version)) }
{
    let path = cut_path(alloc, stream)?;
    let bytes = encode_cut(alloc, &Cut { point })?;
    let op = set(path, bytes, version)?;
    Ok(MetaOp::One(op))
}
