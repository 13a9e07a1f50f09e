//! The log of a writer that begins.

ghost use Rattle.std.specs.Prelude.{◌≡◌, IfOk};
ghost use Rattle.dl_formats.specs.NodeBytes.{IsConf};
ghost use Rattle.dl_quorum.specs.Pieces.{ring};
ghost use Rattle.dl_lwrite.specs.Standing as standing;
ghost use Rattle.dl_rules_ledger.specs.Writers.{new_view};
ghost use Rattle.dl_rules_stream.specs.Nodes.{new_sizes};
ghost use Rattle.dl_writer.specs.Views as log;

use dl_formats::conf::Conf;
use dl_lwrite::writer::LedgerWriter;
use dl_types::ensemble::Ensemble;
use dl_types::memory::NoMemory;
use dl_types::quorum::Quorum;
use dl_types::txid::TxId;
use dl_writer::writer::LogWriter;
use std::alloc::Global;

/// The writer of a new ledger of this configuration.
fn new_ledger(alloc: Global, ledger: u64, conf: Conf) -> Result<LedgerWriter, NoMemory>
    requires { IsConf conf }
    ensures { let pieces = ring ledger conf.b (new_sizes conf) in
        IfOk result (standing.StandsFor (new_view ledger pieces)) }
{
    let Conf { b, e, qw, qa } = conf;
    let ensemble = Ensemble::of(ledger, b, e);
    LedgerWriter::start(alloc, ledger, Quorum { e, qw, qa }, ensemble)
}

/// The log of a new segment, behind this transaction id, on a new ledger of this configuration.
pub(crate) fn new_log(
    alloc: Global,
    segment: u64,
    last: TxId,
    ledger: u64,
    conf: Conf,
) -> Result<LogWriter, NoMemory>
    requires { IsConf conf }
    ensures { let args = log.args_of segment last ledger (ring ledger conf.b (new_sizes conf)) in
        IfOk result (log.StandsFor (log.new_view args)) }
{
    let writer = new_ledger(alloc, ledger, conf)?;
    LogWriter::start(alloc, segment, last, writer)
}
