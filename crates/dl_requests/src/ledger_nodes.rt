//! Requests on the node of one ledger, and its value from the bytes that a task heard.

ghost use Rattle.std.specs.Prelude.{◌≡◌, ◌≤◌, ℕ, IfOk, IfSome, Some};
ghost use Rattle.dl_types.specs.declared.one_op.OneOp.TheVariants.{Set};
ghost use Rattle.dl_types.specs.declared.meta_op.MetaOp.TheVariants as op;
ghost use Rattle.dl_quorum.specs.Sizes.{sizes_of};
ghost use Rattle.dl_formats.specs.Keys.{Ledger, path_of};
ghost use Rattle.dl_formats.specs.NodeBytes.{ledger_bytes};
ghost use Rattle.dl_rules_stream.specs.Requests.{GetLedger, MarkLedger, CloseLedger, op_of};
ghost use Rattle.dl_rules_stream.specs.Listings.{ledger_node_of};
ghost use Rattle.dl_requests.specs.LedgerNodes.{node_or_gave_up};

use crate::build::set;
use dl_formats::conf::Conf;
use dl_formats::decode::decode_ledger;
use dl_formats::encode::encode_ledger;
use dl_formats::ledger::{LedgerMeta, LedgerState};
use dl_formats::paths::ledger_path;
use dl_types::memory::NoMemory;
use dl_types::meta_op::MetaOp;
use dl_types::one_op::OneOp;
use dl_types::quorum::Quorum;
use std::alloc::Global;

/// The request that reads the node of a ledger.
#[tactic(auto, unfolding(dl_rules_stream::specs::Requests::op_of))]
pub fn get_ledger(alloc: Global, ledger: u64) -> Result<MetaOp, NoMemory>
    ensures { IfOk result (λ op. op ≡ op_of (GetLedger ledger)) }
{
    let path = ledger_path(alloc, ledger)?;
    Ok(MetaOp::One(OneOp::Get { path }))
}

/// New metadata for the node of a ledger of this version.
fn set_ledger(
    alloc: Global,
    ledger: u64,
    meta: &LedgerMeta,
    version: u64,
) -> Result<MetaOp, NoMemory>
    ensures { IfOk result (λ x. x
        ≡ op.One (Set (path_of (Ledger ledger)) (ledger_bytes meta.now) (Some version))) }
{
    let bytes = encode_ledger(alloc, meta)?;
    Ok(MetaOp::One(set(ledger_path(alloc, ledger)?, bytes, version)?))
}

/// The request that marks the node of a ledger of this version: the ledger is being recovered.
#[tactic(auto, unfolding(dl_rules_stream::specs::Requests::op_of))]
pub fn mark_ledger(alloc: Global, ledger: u64, q: Quorum, version: u64) -> Result<MetaOp, NoMemory>
    ensures { IfOk result (λ op. op ≡ op_of (MarkLedger ledger (sizes_of q) version)) }
{
    let meta = LedgerMeta {
        state: LedgerState::Recovering,
        q,
        count: 0,
    };
    set_ledger(alloc, ledger, &meta, version)
}

/// The request that closes the node of a ledger of this version: the ledger has so many entries.
#[tactic(auto, unfolding(dl_rules_stream::specs::Requests::op_of))]
pub fn close_ledger(
    alloc: Global,
    ledger: u64,
    q: Quorum,
    count: u64,
    version: u64,
) -> Result<MetaOp, NoMemory>
    ensures { IfOk result (λ op. op ≡ op_of (CloseLedger ledger (sizes_of q) count version)) }
{
    let meta = LedgerMeta {
        state: LedgerState::Closed,
        q,
        count,
    };
    set_ledger(alloc, ledger, &meta, version)
}

/// The metadata that the bytes of a ledger's node spell, where its ensemble is at most that of all bookies; else an order gives
/// up at the node's path.
pub fn ledger_in(conf: &Conf, bytes: &[u8]) -> Option<LedgerMeta>
    ensures value { (ledger : ℕ) → ledger_node_of conf.now ledger bytes.now
        ≡ node_or_gave_up ledger result }
    ensures within { IfSome result (λ meta. meta.q.e ≤ conf.now.b) }
{
    match decode_ledger(bytes) {
        Ok(meta) => { if meta.q.e <= conf.b { Some(meta) } else { None } }
        Err(_) => None,
    }
}
