use thiserror::Error;

/// The first fault of some bytes in their order, told by how many bytes are left at it. Counted from the end, the place is
/// the same for the bytes and for what is left of them behind a field, so that `?` passes it on unchanged.
#[derive(Clone, Copy, Debug, PartialEq, Eq, Error)]
pub enum Fault {
    /// A field isn't whole: so many bytes are left from its first byte on.
    #[error("a field is cut short where {0} bytes are left")]
    Short(usize),
    /// A byte or a number isn't allowed: so many bytes are left from its first byte on.
    #[error("a field is not allowed where {0} bytes are left")]
    Bad(usize),
    /// So many bytes are left behind the last field.
    #[error("{0} bytes are left behind the last field")]
    Long(usize),
}
