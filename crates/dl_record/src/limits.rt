use dl_types::entry_bytes::MAX_ENTRY;
use dl_types::payload::MAX_PAYLOAD;

/// The most bytes that an entry has, as a count of bytes in memory.
pub const ENTRY_MAX: usize = MAX_ENTRY as usize;

/// The most bytes that the payload of a stored record has, as the field of its length.
pub const PAYLOAD_MAX: u32 = MAX_PAYLOAD as u32;

/// The most members that a record set has, so that a reader holds a short list for each set.
pub const MEMBERS_MAX: u16 = 64;
