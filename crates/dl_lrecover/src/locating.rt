//! A ledger's node with its ensemble, for what is recovered.

ghost use Rattle.std.specs.Prelude.{◌≡◌, ◌≤◌};
ghost use Rattle.dl_requests.specs.LedgerNodes.{node_of_meta};
ghost use Rattle.dl_rules_stream.specs.Nodes.{LedgerNode};
ghost use Rattle.dl_rules_stream.specs.LedgerRecoveries.{RecoveryArgs, subject_of, come_to};
ghost use Rattle.dl_lrecover.specs.Standing.{IsNodeAt, args_of};

use crate::target::{Located, Target};
use dl_formats::ledger::{LedgerMeta, LedgerState};
use dl_subject::subject::Subject;
use dl_types::ensemble::Ensemble;

/// The ledger with this metadata, whose ensemble is at most that of all bookies.
pub(crate) fn locate(target: &Target, meta: LedgerMeta) -> Located
    requires { meta.q.e ≤ target.now.conf.b }
    ensures { IsNodeAt (args_of target.now) (node_of_meta meta) result }
{
    let ensemble = Ensemble::of(target.ledger, target.conf.b, meta.q.e);
    Located { meta, ensemble }
}

/// What the messages about the ledger with this node are about.
pub(crate) fn subject_of(target: &Target, node: &Located) -> Subject
    ensures { (m : LedgerNode) → IsNodeAt (args_of target.now) m node.now
        → result ≡ subject_of (args_of target.now) m }
{
    Subject::new(target.tag, target.ledger, node.meta.q, node.ensemble)
}

/// The node once it has come to this state, with this count.
pub(crate) fn come_to(node: &Located, state: LedgerState, count: u64) -> Located
    ensures { (x : RecoveryArgs) (m : LedgerNode) → IsNodeAt x m node.now
        → IsNodeAt x (come_to state count m) result }
{
    let q = node.meta.q;
    Located {
        meta: LedgerMeta { state, q, count },
        ensemble: node.ensemble,
    }
}
