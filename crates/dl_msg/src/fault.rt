use thiserror::Error;

/// Why bytes are no message: the first fault in the order of the bytes, with the place, from 0, of its first byte.
#[derive(Clone, Copy, Debug, PartialEq, Eq, Error)]
pub enum MsgFault {
    /// Memory ran out. Nothing is said of the bytes.
    #[error("no memory")]
    NoMemory,
    /// A field is cut short. A length and the bytes behind it are two fields.
    #[error("cut short at {at}")]
    Short { at: usize },
    /// A kind, a mode, a flag, a reason, a count or a byte of a path that no message has there.
    #[error("bad kind at {at}")]
    BadKind { at: usize },
    /// Bytes are left over from this place on.
    #[error("bytes left over at {at}")]
    Long { at: usize },
}
