ghost use Rattle.std.specs.Prelude.{◌≡◌, ◌<◌, ◌^◌};

use dl_types::payload::Payload;
use dl_types::payloads::Payloads;
use dl_types::txid::TxId;

/// A stored record of an entry (DistributedLog documentation, "Log records"). Its position is the count of the user rows
/// of the log segment that stand before it.
#[derive(Debug, Drop)]
pub enum Stored {
    /// One record of a user.
    Plain {
        position: u32,
        txid: TxId,
        payload: Payload,
    },
    /// A control record, which the library writes and readers skip. It stands alone in its entry.
    Control {
        position: u32,
        txid: TxId,
    },
    /// A record set: one or more records of a user that share one transaction id.
    Set {
        position: u32,
        txid: TxId,
        payloads: Payloads,
    },
}

impl Stored {
    ghost use Rattle.dl_record.specs.Stored.{position_of, txid_of, rows_in};

    /// The count of the user rows of the segment that stand before the record.
    pub fn position(&self) -> u32
        ensures { result ≡ position_of self.now }
    {
        match self {
            Stored::Plain { position, .. } => *position,
            Stored::Control { position, .. } => *position,
            Stored::Set { position, .. } => *position,
        }
    }

    /// The transaction id of the record.
    pub fn txid(&self) -> TxId
        ensures { result ≡ txid_of self.now }
    {
        match self {
            Stored::Plain { txid, .. } => *txid,
            Stored::Control { txid, .. } => *txid,
            Stored::Set { txid, .. } => *txid,
        }
    }

    /// How many user rows the record holds.
    pub fn rows(&self) -> usize
        ensures rows { result ≡ rows_in self.now }
        ensures bound { result < 2 ^ 63 }
    {
        match self {
            Stored::Plain { .. } => 1,
            Stored::Control { .. } => 0,
            Stored::Set { payloads, .. } => payloads.as_slice().len(),
        }
    }
}
