use dl_types::txid::TxId;

/// Where a walk over an entry stands.
#[derive(Clone, Copy, Debug, PartialEq, Eq)]
pub struct Cursor {
    /// Where the next stored record begins.
    pub at: usize,
    /// How many stored records are left.
    pub records: u16,
    /// The slot of the next row.
    pub slot: u32,
    /// How many members are left of the record set under way.
    pub members: u16,
    /// Where the next member begins.
    pub member_at: usize,
    /// The transaction id of the record set under way.
    pub txid: TxId,
}
