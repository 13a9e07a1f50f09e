use dl_types::row::Rows;

/// An entry that was sent.
#[derive(Debug, Drop)]
pub struct Sent {
    /// Its number in the ledger.
    pub entry: u64,
    /// Its rows; a control entry has none.
    pub rows: Rows,
}
