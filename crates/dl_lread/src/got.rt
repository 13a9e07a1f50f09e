use dl_types::entry_bytes::EntryBytes;

/// What a reader has got.
#[derive(Debug, Drop)]
pub enum Got {
    /// Nothing yet: no cover has answered, or no bookie has sent the entry.
    NotYet,
    /// How many entries can be read: the greatest count that a cover told (BookKeeper, "last add confirmed", as a count).
    Lac(u64),
    /// The bytes of the entry that was asked for.
    Entry(EntryBytes),
}
