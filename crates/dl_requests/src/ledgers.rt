//! Requests on ledgers: their making, and their place in a stream's node `alloc`.

ghost use Rattle.std.specs.Prelude.{◌≡◌, ℕ, IfOk, IfSome, Option};
ghost use Rattle.dl_quorum.specs.Sizes.{sizes_of};
ghost use Rattle.dl_formats.specs.NodeBytes.{IsConf};
ghost use Rattle.dl_rules_stream.specs.Nodes.{new_sizes};
ghost use Rattle.dl_rules_stream.specs.Requests.{MakeLedger, TakeLedger, op_of};

use crate::build::{create, multi, set};
use dl_formats::allocation::Alloc;
use dl_formats::conf::Conf;
use dl_formats::encode::{encode_alloc, encode_ledger};
use dl_formats::ledger::{LedgerMeta, LedgerState};
use dl_formats::paths::{alloc_path, ledger_path, ledger_stem};
use dl_types::memory::NoMemory;
use dl_types::meta_op::MetaOp;
use dl_types::mode::Mode;
use dl_types::name::Name;
use dl_types::one_op::OneOp;
use dl_types::path::Path;
use dl_types::quorum::Quorum;
use std::alloc::Global;

/// The quorum of new ledgers of this configuration.
pub fn quorum_of(conf: Conf) -> Quorum
    requires { IsConf conf }
    ensures { sizes_of result ≡ new_sizes conf }
{
    let Conf { e, qw, qa, .. } = conf;
    Quorum { e, qw, qa }
}

/// The request that makes a ledger of this quorum, to be written, with the next number.
#[tactic(auto, unfolding(dl_rules_stream::specs::Requests::op_of))]
pub fn make_ledger(alloc: Global, q: Quorum) -> Result<MetaOp, NoMemory>
    ensures { IfOk result (λ op. op ≡ op_of (MakeLedger (sizes_of q))) }
{
    let path = ledger_stem(alloc)?;
    let meta = LedgerMeta {
        state: LedgerState::Writing,
        q,
        count: 0,
    };
    let bytes = encode_ledger(alloc, &meta)?;
    let ledger = create(path, bytes, Mode::Counted)?;
    Ok(MetaOp::One(ledger))
}

/// The request that names a new ledger in a stream's node `alloc` of this version, and deletes the one that it names by now,
/// where there is one. The owner's member of the lock has to be there.
#[tactic(auto, unfolding(dl_rules_stream::specs::Requests::op_of))]
pub fn take_ledger(
    alloc: Global,
    stream: &Name,
    member: &Path,
    old: Option<u64>,
    version: u64,
    ledger: u64,
) -> Result<MetaOp, NoMemory>
    ensures { IfOk result (λ op. op ≡ op_of (TakeLedger stream.now member.now old version ledger)) }
{
    let mut ops = Vec::new(alloc);
    ops.push(OneOp::Check {
        path: member.share()?,
        version: None,
    })?;
    if let Some(old) = old {
        ops.push(OneOp::Delete {
            path: ledger_path(alloc, old)?,
            version: None,
        })?;
    }
    let named = Alloc {
        ledger: Some(ledger),
    };
    let bytes = encode_alloc(alloc, &named)?;
    ops.push(set(alloc_path(alloc, stream)?, bytes, version)?)?;
    Ok(multi(ops))
}
