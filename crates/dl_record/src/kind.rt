use dl_types::txid::TxId;

/// The kinds of stored records.
#[derive(Clone, Copy, Debug, PartialEq, Eq)]
pub enum Kind {
    Plain,
    Control,
    Set,
}

/// The fields of a stored record, and the place where its payload ends.
#[derive(Clone, Copy, Debug, PartialEq, Eq)]
pub struct Head {
    pub position: u32,
    pub kind: Kind,
    pub txid: TxId,
    pub end: usize,
}

/// What a stored record asks of the one behind it: to count on by its rows, and that the transaction id does not fall.
#[derive(Clone, Copy, Debug, PartialEq, Eq)]
pub struct Behind {
    pub position: u64,
    pub txid: u64,
}
