ghost use Rattle.std.specs.Prelude.{◌≡◌, IfOk};
ghost use Rattle.dl_rules_stream.specs.Allocations.{takes};
ghost use Rattle.dl_rules_stream.specs.Nodes.{new_sizes};
ghost use Rattle.dl_rules_stream.specs.Requests.{MakeLedger, op_of};

use dl_formats::conf::Conf;
use dl_requests::ledgers::{make_ledger, quorum_of, take_ledger};
use dl_types::memory::NoMemory;
use dl_types::meta_op::MetaOp;
use dl_types::name::Name;
use dl_types::path::Path;
use std::alloc::Global;
use std::marker::Model;

/// What an allocation is given: the stream, the path of its owner's member of the lock, the ledger that `alloc` names by now
/// with the version of `alloc`, and the configuration. Contracts see it as the arguments of its order.
#[derive(Debug, Drop)]
pub(crate) struct Given {
    pub(crate) stream: Name,
    pub(crate) member: Path,
    pub(crate) old: Option<u64>,
    pub(crate) version: u64,
    pub(crate) conf: Conf,
}

impl Model for Given {
    ghost use Rattle.dl_formats.specs.NodeBytes.{IsConf};
    ghost use Rattle.dl_rules_stream.specs.Allocations.{AllocationArgs};

    ghost Value = { AllocationArgs };

    ghost view = { λ g. record {
      stream = g.stream;
      member = g.member;
      old = g.old;
      version = g.version;
      conf = g.conf;
    } };

    ghost invariant = { λ g. IsConf g.conf };
}

impl Given {
    /// The request that makes a ledger.
    pub(crate) fn make(&self, alloc: Global) -> Result<MetaOp, NoMemory>
        ensures { IfOk result (λ op. op ≡ op_of (MakeLedger (new_sizes self.now.conf))) }
    {
        let q = quorum_of(self.conf);
        make_ledger(alloc, q)
    }

    /// The request that names this ledger in the stream's node `alloc`.
    pub(crate) fn take(&self, alloc: Global, ledger: u64) -> Result<MetaOp, NoMemory>
        ensures { IfOk result (λ op. op ≡ op_of (takes self.now ledger)) }
    {
        let Given {
            stream,
            member,
            old,
            version,
            ..
        } = self;
        take_ledger(alloc, stream, member, *old, *version, ledger)
    }
}
