use dl_types::quorum::Quorum;

/// How far a ledger has come (BookKeeper documentation, "Ledger metadata").
#[derive(Clone, Copy, Debug, PartialEq, Eq)]
pub enum LedgerState {
    /// Its writer adds entries.
    Writing,
    /// It is fenced, and a reader finds out where it ends.
    Recovering,
    /// Its count of entries is settled.
    Closed,
}

/// The metadata of a ledger, which its node below `/ledgers` holds.
#[derive(Clone, Copy, Debug, PartialEq, Eq)]
pub struct LedgerMeta {
    /// How far the ledger has come.
    pub state: LedgerState,
    /// How its entries are replicated.
    pub q: Quorum,
    /// How many entries it has once it is closed; 0 before.
    pub count: u64,
}

/// The fields of a ledger's metadata as they stand in its bytes, with a quorum's numbers apart.
#[derive(Clone, Copy, Debug, PartialEq, Eq)]
pub(crate) struct LedgerFields {
    pub state: LedgerState,
    pub e: u8,
    pub qw: u8,
    pub qa: u8,
    pub count: u64,
}
