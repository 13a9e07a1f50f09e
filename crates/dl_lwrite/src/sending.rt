ghost use Rattle.std.specs.Prelude.{◌≡◌, IfOk, map};
ghost use Rattle.dl_quorum.specs.Sizes.{sizes_of};
ghost use Rattle.dl_quorum.specs.Pieces.{one_piece, ensemble_members, members};
ghost use Rattle.dl_rules_ledger.specs.Writers.{add_to};

use bytes::Bytes;
use dl_msg::letters::Letters;
use dl_msg::msg::Msg;
use dl_subject::telling::tell_write_set;
use dl_types::ensemble::Ensemble;
use dl_types::memory::NoMemory;
use dl_types::quorum::Quorum;
use std::alloc::Global;

/// The messages by which the bookies of an entry's write set are told it, in the order of their places. They share its bytes.
pub(crate) fn adds(
    alloc: Global,
    q: Quorum,
    ensemble: &Ensemble,
    ledger: u64,
    entry: u64,
    count: u64,
    bytes: Bytes,
) -> Result<Letters, NoMemory>
    requires { ensemble.now.e ≡ q.e }
    ensures { IfOk result (λ told. told ≡ map (add_to ledger entry count bytes)
        (members (one_piece (sizes_of q) (ensemble_members ensemble.now)) entry)) }
{
    let msg = Msg::Add {
        ledger,
        entry,
        count,
        bytes,
    };
    tell_write_set(alloc, q, ensemble, entry, &msg)
}
