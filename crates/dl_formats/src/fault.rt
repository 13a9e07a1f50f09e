use thiserror::Error;

/// Why the bytes of a node are refused: the first fault in their order. A place is counted in bytes, from 0.
#[derive(Clone, Copy, Debug, PartialEq, Eq, Error)]
pub enum MetaBytesFault {
    /// The first byte is not a version that this kind of node has: the place is 0.
    #[error("the version at byte {at} is not known")]
    BadVersion { at: usize },
    /// The byte or number that begins here is not allowed.
    #[error("the value at byte {at} is not allowed")]
    BadKind { at: usize },
    /// The field that begins here is cut short.
    #[error("the field at byte {at} is cut short")]
    Short { at: usize },
    /// Bytes are left over from here on.
    #[error("bytes are left over from byte {at} on")]
    Long { at: usize },
}
