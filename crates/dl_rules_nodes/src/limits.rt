//! The limits of a storage node. They bound its memory, which it takes all at once when it is made or loaded.

/// The pages of its pool: they have as many bytes as the longest batch, so that what waits fits one batch.
pub const POOL_PAGES: u32 = 2_048;

/// The different entries in its index, those of items that wait among them.
pub const MOST_ENTRIES: usize = 65_536;

/// The different ledgers in its table, likewise.
pub const MOST_LEDGERS: usize = 4_096;

/// The replies that wait in its queue.
pub const MOST_WAITING: usize = 4_096;

/// The bytes of a batch of items.
pub const LONGEST_BATCH: usize = 8_388_608;
