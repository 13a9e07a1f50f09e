use crate::shared::Shared;

/// The kind of an entry's bytes.
#[derive(Clone, Copy, Debug)]
pub struct EntryKind;

/// The bytes of an entry of a ledger: at most `MAX_ENTRY` of them.
pub type EntryBytes = Shared<EntryKind>;

/// The most bytes of an entry.
pub const MAX_ENTRY: u64 = 1_048_576;
