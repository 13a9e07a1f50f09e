/// What a stop inside a writing call leaves of the file.
#[derive(Clone, Copy, Debug, PartialEq, Eq)]
pub enum Outcome {
    /// The bytes of the last sync.
    Before,
    /// All bytes written, the work of the stopped call included.
    After,
}

/// A stop that is set on a file: it lets so many more writing calls pass, stops inside the next one, and fails every
/// later call on the file.
#[derive(Clone, Copy, Debug, PartialEq, Eq)]
pub struct Fuse {
    /// How many more writing calls pass.
    pub left: u64,
    /// What the stop leaves.
    pub outcome: Outcome,
    /// Whether it has stopped a call.
    pub stopped: bool,
}
