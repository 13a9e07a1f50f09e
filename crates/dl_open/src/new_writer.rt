use dl_types::path::Path;
use dl_types::txid::TxId;
use dl_writer::writer::LogWriter;

/// A writer that begins.
#[derive(Drop)]
pub struct NewWriter {
    /// The path of its member of the stream's lock.
    pub member: Path,
    /// Its segment.
    pub segment: u64,
    /// The ledger that stores the segment.
    pub ledger: u64,
    /// The greatest transaction id before it.
    pub last: TxId,
    /// The version of the stream's node `maxseq`.
    pub version: u64,
    /// The log, to which nothing is written yet.
    pub log: LogWriter,
}
