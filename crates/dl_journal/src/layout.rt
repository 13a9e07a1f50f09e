//! The layout of a journal's file. Sizes are in bytes.

/// The greatest size of a journal's file, since a load holds the whole file in memory.
pub const LIMIT: u64 = 268_435_456;

/// The greatest number of a batch: a signed number of eight bytes holds it too.
pub const LAST_NUMBER: u64 = 9_223_372_036_854_775_807;

/// A batch's number.
pub const NUMBER: usize = 8;

/// What stands before a body: the number and a length of four bytes.
pub const HEAD: usize = 12;

/// A gate.
pub const GATE: usize = 1;

/// What a frame has beside its body: the head, and the gate of the batch after it.
pub const AROUND: usize = HEAD + GATE;

/// The bytes of a new journal: the magic `DLJRNL01` and a shut gate.
pub const START: [u8; 9] = [68, 76, 74, 82, 78, 76, 48, 49, 0];

/// The magic's length.
pub const MAGIC: usize = 8;
