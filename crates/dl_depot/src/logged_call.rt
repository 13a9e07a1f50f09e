use crate::file_id::FileId;

/// What a writing call did, with the bytes that it wrote.
#[derive(Drop)]
pub enum Work {
    /// These bytes were put at this place.
    Write { at: u64, bytes: Vec<u8> },
    /// The file was cut to this size.
    Cut { size: u64 },
    /// The file was synced.
    Sync,
}

/// How a writing call ended.
#[derive(Clone, Copy, Debug, PartialEq, Eq)]
pub enum End {
    /// It succeeded.
    Passed,
    /// A fuse stopped it, and left the bytes of the last sync.
    StoppedBefore,
    /// A fuse stopped it, and left all bytes written.
    StoppedAfter,
}

/// A writing call, as the log of a depot in memory keeps it.
#[derive(Drop)]
pub struct LoggedCall {
    /// The file that it was made on.
    pub file: FileId,
    /// What it did.
    pub work: Work,
    /// How it ended.
    pub end: End,
}
