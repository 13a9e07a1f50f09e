use dl_record::limits::ENTRY_MAX;

/// How many bytes an entry's item has before those of the entry: its kind, three numbers of eight bytes, and a length.
pub const BEFORE_ENTRY: usize = 29;

/// How many bytes the item of a fence has: its kind and a ledger.
pub const FENCE_LENGTH: usize = 9;

/// What an item has beside the bytes of its entry. The confirmed count is the one that came with the entry.
#[derive(Clone, Copy, Debug, PartialEq, Eq)]
pub enum Head {
    /// An entry that a writer added (the BookKeeper protocol, "add entry").
    Add { ledger: u64, entry: u64, count: u64 },
    /// An entry that a recovery copied ("recovery add").
    Copy { ledger: u64, entry: u64, count: u64 },
    /// A fence of a ledger ("fence ledger").
    Fence { ledger: u64 },
}

impl Head {
    ghost use Rattle.std.specs.Prelude.{◌≡◌, ◌≤◌, ◌+◌, length};
    ghost use Rattle.dl_rules_nodes.specs.Items.{item_length};
    ghost use Rattle.dl_items.specs.Heads.{ledger_in, entry_named, count_of, item_of};

    /// The ledger of the item.
    pub fn ledger(self) -> u64
        ensures { result ≡ ledger_in self }
    {
        match self {
            Head::Add { ledger, .. } => ledger,
            Head::Copy { ledger, .. } => ledger,
            Head::Fence { ledger } => ledger,
        }
    }

    /// The number of the item's entry in its ledger; none for a fence.
    pub fn entry(self) -> Option<u64>
        ensures { result ≡ entry_named self }
    {
        match self {
            Head::Add { entry, .. } => Some(entry),
            Head::Copy { entry, .. } => Some(entry),
            Head::Fence { .. } => None,
        }
    }

    /// The confirmed count that the item carries, 0 for a fence.
    pub fn count(self) -> u64
        ensures { result ≡ count_of self }
    {
        match self {
            Head::Add { count, .. } => count,
            Head::Copy { count, .. } => count,
            Head::Fence { .. } => 0,
        }
    }

    /// How many bytes the item has whose entry has these bytes. A fence has no entry, and the bytes count for nothing.
    pub fn size(self, bytes: &[u8]) -> usize
        requires { length bytes.now ≤ ENTRY_MAX }
        ensures size { result ≡ item_length (item_of self bytes.now) }
        ensures bound { result ≤ BEFORE_ENTRY + ENTRY_MAX }
    {
        match self {
            Head::Add { .. } => BEFORE_ENTRY + bytes.len(),
            Head::Copy { .. } => BEFORE_ENTRY + bytes.len(),
            Head::Fence { .. } => FENCE_LENGTH,
        }
    }
}
