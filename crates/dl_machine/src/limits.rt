//! The limits of a replay: they bound its memory and the numbers that it counts.

/// The lines of a schedule.
pub const MOST_LINES: u64 = 1_000_000;

/// The bytes of a schedule.
pub const MOST_SCHEDULE: u64 = 16_777_216;

/// The messages of a run.
pub const MOST_MESSAGES: u64 = 1_000_000;

/// The encoded bytes of the messages of a run.
pub const MOST_MESSAGE_BYTES: u64 = 1_073_741_824;

/// The bytes of a transcript.
pub const MOST_TRANSCRIPT: u64 = 268_435_456;

/// The records that a client has had taken, over all its processes: their numbers have 32 bits.
pub const MOST_CALLS: u64 = 4_294_967_295;
