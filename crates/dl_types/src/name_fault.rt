use thiserror::Error;

/// Why bytes are no name.
#[derive(Clone, Copy, Debug, PartialEq, Eq, Error)]
pub enum NameFault {
    /// Memory ran out.
    #[error("no memory")]
    NoMemory,
    /// The place, from 0, of the first byte that breaks the form of a name.
    #[error("bad name at {at}")]
    BadName { at: u8 },
}
