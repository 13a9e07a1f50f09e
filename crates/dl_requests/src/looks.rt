//! The request that looks at a stream before it is recovered or written: its segments, its greatest segment, and the ledger
//! that is allocated for the next one.

ghost use Rattle.std.specs.Prelude.{◌≡◌, IfOk};
ghost use Rattle.dl_rules_stream.specs.Requests.{Look, op_of};

use crate::build::multi;
use dl_formats::paths::{alloc_path, maxseq_path, segs_path};
use dl_types::memory::NoMemory;
use dl_types::meta_op::MetaOp;
use dl_types::name::Name;
use dl_types::one_op::OneOp;
use std::alloc::Global;

/// The request that lists a stream's segments, and reads its nodes `maxseq` and `alloc`.
#[tactic(auto, unfolding(dl_rules_stream::specs::Requests::op_of))]
pub fn look(alloc: Global, stream: &Name) -> Result<MetaOp, NoMemory>
    ensures { IfOk result (λ op. op ≡ op_of (Look stream.now)) }
{
    let mut ops = Vec::new(alloc);
    ops.push(OneOp::Children {
        path: segs_path(alloc, stream)?,
    })?;
    ops.push(OneOp::Get {
        path: maxseq_path(alloc, stream)?,
    })?;
    ops.push(OneOp::Get {
        path: alloc_path(alloc, stream)?,
    })?;
    Ok(multi(ops))
}
