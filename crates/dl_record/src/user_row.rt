use dl_types::txid::TxId;

/// A user row of an entry.
#[derive(Clone, Copy, Debug, PartialEq, Eq)]
pub struct UserRow<'a> {
    /// The row among those of its entry, from 0. Control records are not counted.
    pub slot: u32,
    /// Its transaction id; the members of a record set share theirs.
    pub txid: TxId,
    /// Its payload, in the bytes of the entry.
    pub payload: &'a [u8],
}
