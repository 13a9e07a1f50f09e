//! Requests that make and remove streams.

ghost use Rattle.std.specs.Prelude.{◌≡◌, IfOk};
ghost use Rattle.dl_rules_stream.specs.Requests.{MakeStream, MakeAgain, RemoveStream, op_of};

use crate::build::{lasting, multi};
use dl_formats::allocation::Alloc;
use dl_formats::cut::Cut;
use dl_formats::encode::{encode_alloc, encode_cut, encode_maxseq};
use dl_formats::maxseq::MaxSeq;
use dl_formats::paths::{alloc_path, cut_path, lock_path, maxseq_path, segs_path, stream_path};
use dl_types::dlsn::Dlsn;
use dl_types::memory::NoMemory;
use dl_types::meta_op::MetaOp;
use dl_types::name::Name;
use dl_types::one_op::OneOp;
use dl_types::txid::TxId;
use std::alloc::Global;

/// The point of a new stream: the first place that there may be.
const FIRST_POINT: Dlsn = Dlsn {
    segment: 1,
    entry: 0,
    slot: 0,
};

/// The request that makes all nodes of a stream.
#[tactic(auto, unfolding(dl_rules_stream::specs::Requests::op_of))]
pub fn make_stream(alloc: Global, stream: &Name) -> Result<MetaOp, NoMemory>
    ensures { IfOk result (λ op. op ≡ op_of (MakeStream stream.now)) }
{
    let maxseq = MaxSeq {
        segment: 0,
        last: TxId::new(0),
    };
    let mut ops = Vec::new(alloc);
    ops.push(lasting(stream_path(alloc, stream)?, Vec::new(alloc))?)?;
    ops.push(lasting(maxseq_path(alloc, stream)?, encode_maxseq(alloc, &maxseq)?)?)?;
    ops.push(lasting(
        cut_path(alloc, stream)?,
        encode_cut(alloc, &Cut { point: FIRST_POINT })?,
    )?)?;
    ops.push(lasting(
        alloc_path(alloc, stream)?,
        encode_alloc(alloc, &Alloc { ledger: None })?,
    )?)?;
    ops.push(lasting(lock_path(alloc, stream)?, Vec::new(alloc))?)?;
    ops.push(lasting(segs_path(alloc, stream)?, Vec::new(alloc))?)?;
    Ok(multi(ops))
}

/// The request that makes the nodes of a stream that was removed before: its lock and its segments.
#[tactic(auto, unfolding(dl_rules_stream::specs::Requests::op_of))]
pub fn make_again(alloc: Global, stream: &Name) -> Result<MetaOp, NoMemory>
    ensures { IfOk result (λ op. op ≡ op_of (MakeAgain stream.now)) }
{
    let mut ops = Vec::new(alloc);
    ops.push(lasting(lock_path(alloc, stream)?, Vec::new(alloc))?)?;
    ops.push(lasting(segs_path(alloc, stream)?, Vec::new(alloc))?)?;
    Ok(multi(ops))
}

/// The request that removes a stream: its lock and its segments, which are to have no children.
#[tactic(auto, unfolding(dl_rules_stream::specs::Requests::op_of))]
pub fn remove_stream(alloc: Global, stream: &Name) -> Result<MetaOp, NoMemory>
    ensures { IfOk result (λ op. op ≡ op_of (RemoveStream stream.now)) }
{
    let mut ops = Vec::new(alloc);
    ops.push(OneOp::Delete {
        path: lock_path(alloc, stream)?,
        version: None,
    })?;
    ops.push(OneOp::Delete {
        path: segs_path(alloc, stream)?,
        version: None,
    })?;
    Ok(multi(ops))
}
