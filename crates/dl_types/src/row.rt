use crate::client::ClientId;
use crate::dlsn::Dlsn;
use crate::list::ListOf;
use crate::payload::Payload;
use crate::txid::TxId;

/// Where a row comes from: a client, and the number of the record among those that the client has had taken in this
/// replay. The number counts from 1 and goes on over new incarnations of the client.
#[derive(Clone, Copy, Debug, PartialEq, Eq)]
pub struct Origin {
    pub client: ClientId,
    pub call: u32,
}

/// A row of a stream: a record at its place.
#[derive(Clone, Debug, Drop)]
pub struct Row {
    pub place: Dlsn,
    pub txid: TxId,
    pub payload: Payload,
    pub origin: Origin,
}

/// Rows of a stream, by rising places.
pub type Rows = ListOf<Row>;
