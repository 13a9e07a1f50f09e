use thiserror::Error;

/// Why a line of a schedule or of a transcript is refused.
#[derive(Clone, Copy, Debug, PartialEq, Eq, Error)]
pub enum LineFault {
    /// Memory ran out. Nothing is said of the line.
    #[error("no memory")]
    NoMemory,
    /// The line is none of the grammar. The column is the place, from 1, of the first byte at which no line of the
    /// grammar goes on, or one past the last byte where the line is the beginning of one.
    #[error("bad line at column {column}")]
    BadLine { column: u64 },
}
