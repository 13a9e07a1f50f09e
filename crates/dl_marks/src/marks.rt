/// An entry of a ledger.
#[derive(Clone, Copy, Debug, PartialEq, Eq, Hash)]
pub struct EntryKey {
    /// The ledger.
    pub ledger: u64,
    /// The entry's number in it.
    pub entry: u64,
}

/// Where in a file the bytes of an entry stand.
#[derive(Clone, Copy, Debug, PartialEq, Eq)]
pub struct Place {
    /// The offset of the first byte, from 0.
    pub at: u64,
    /// How many bytes there are.
    pub size: u32,
}

/// What is kept of an entry.
#[derive(Clone, Copy, Debug, PartialEq, Eq)]
pub struct EntryMarks {
    /// An Add of it is durable.
    pub added: bool,
    /// The bytes of its first durable item, an Add or a Copy, where there is one.
    pub place: Option<Place>,
    /// An Add of it waits.
    pub adding: bool,
    /// An Add or a Copy of it waits.
    pub coming: bool,
}

/// What is kept of a ledger.
#[derive(Clone, Copy, Debug, PartialEq, Eq)]
pub struct LedgerMarks {
    /// A fence of it is durable.
    pub fenced: bool,
    /// A fence of it waits.
    pub fencing: bool,
    /// The greatest confirmed count that a durable item of it carries.
    pub greatest: u64,
}
