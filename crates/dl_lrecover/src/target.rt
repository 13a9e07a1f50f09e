ghost use Rattle.std.specs.Prelude.{◌≡◌, ◌≤◌};
ghost use Rattle.dl_formats.specs.NodeBytes.{IsConf, ten_nines};

use dl_formats::conf::Conf;
use dl_formats::ledger::LedgerMeta;
use dl_types::ensemble::Ensemble;

/// What is recovered: a ledger of this configuration; the tag is that of the messages.
#[derive(Clone, Copy, Debug)]
pub(crate) struct Target {
    pub tag: u32,
    pub ledger: u64,
    pub conf: Conf,
    pub ghost number: { ledger ≤ ten_nines },
    pub ghost valid: { IsConf conf },
}

/// The metadata of a ledger, with its ensemble.
#[derive(Clone, Copy, Debug)]
pub struct Located {
    /// The metadata.
    pub meta: LedgerMeta,
    /// The bookies that the ledger is spread over.
    pub ensemble: Ensemble,
    pub ghost rule: { ensemble.e ≡ meta.q.e },
}
