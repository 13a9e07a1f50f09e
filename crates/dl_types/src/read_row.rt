use crate::dlsn::Dlsn;
use crate::list::ListOf;
use crate::payload::Payload;
use crate::txid::TxId;

/// A row as a reader is given it: a record at its place, without its origin.
#[derive(Clone, Debug, Drop)]
pub struct ReadRow {
    pub place: Dlsn,
    pub txid: TxId,
    pub payload: Payload,
}

/// Rows that a reader is given, by rising places.
pub type ReadRows = ListOf<ReadRow>;
