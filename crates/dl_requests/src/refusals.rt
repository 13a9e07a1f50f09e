//! What a failed operation means for an order.

ghost use Rattle.std.specs.Prelude.{◌≡◌, ℕ, IfOk};
ghost use Rattle.dl_rules_stream.specs.Requests.{Request, op_of, path_in, path_nth, path_at};
ghost use Rattle.dl_rules_stream.specs.Orders.{no_way_on};
ghost use Rattle.dl_requests.specs.Failures.{is_missing};

use dl_types::memory::NoMemory;
use dl_types::meta_op::MetaOp;
use dl_types::one_op::OneOp;
use dl_types::path::Path;
use dl_types::refusal::Refusal;
use dl_types::why::Why;
use std::alloc::Global;

/// Whether the failure of an operation at this place says that the node of the first one isn't there.
#[tactic(auto, using(crate::proofs::FailureLemmas::not_missing, crate::proofs::FailureLemmas::missing_behind))]
pub fn is_missing(place: u16, why: Why) -> bool
    ensures { result ≡ is_missing place why }
{
    match why {
        Why::NoNode => place == 0,
        _ => false,
    }
}

/// The path that an operation names.
fn path_in(op: &OneOp) -> &Path
    ensures { result.now ≡ path_in op.now }
{
    match op {
        OneOp::Create { path, .. } => path,
        OneOp::Delete { path, .. } => path,
        OneOp::Set { path, .. } => path,
        OneOp::Check { path, .. } => path,
        OneOp::Get { path } => path,
        OneOp::Children { path } => path,
    }
}

/// The path of the operation at a place of a list, from 0; the root's path where there is none.
#[tactic(auto, using(crate::proofs::PathLemmas::path_nth_is, crate::proofs::PathLemmas::path_nth_past))]
fn path_nth(alloc: Global, ops: &[OneOp], place: usize) -> Result<Path, NoMemory>
    ensures { IfOk result (λ path. path ≡ path_nth ops.now place) }
{
    match ops.get(place) {
        Some(op) => path_in(op).share(),
        None => Path::new(alloc, b"/"),
    }
}

/// The path of the operation at a place of a request, from 0; the root's path where there is none.
fn path_at(alloc: Global, op: &MetaOp, place: u16) -> Result<Path, NoMemory>
    ensures { IfOk result (λ path. path ≡ path_at op.now place) }
{
    match op {
        MetaOp::One(op) => path_in(op).share(),
        MetaOp::Multi { ops } => path_nth(alloc, ops.as_slice(), place as usize),
    }
}

/// The refusal by a failure at this path: the node has moved on to another version, or the order gives up there.
fn refusal_at(path: Path, why: Why) -> Refusal
    ensures { (r : Request) (place : ℕ) → path ≡ path_at (op_of r) place
        → result ≡ no_way_on r place why }
{
    match why {
        Why::BadVersion(version) => Refusal::Moved { path, version },
        _ => Refusal::GaveUp { path },
    }
}

/// The refusal of an order whose request failed at this place, and which has no way on from there: the node has moved on to
/// another version, or the order gives up at its path.
pub fn no_way_on(alloc: Global, request: MetaOp, place: u16, why: Why) -> Result<Refusal, NoMemory>
    ensures { IfOk result (λ refusal. (r : Request) → request ≡ op_of r
        → refusal ≡ no_way_on r place why) }
{
    let path = path_at(alloc, &request, place)?;
    Ok(refusal_at(path, why))
}
