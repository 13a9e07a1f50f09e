use crate::body::Body;
use crate::names::Names;
use crate::path::Path;

/// The answer to one operation that succeeded.
#[derive(Clone, Debug, PartialEq, Eq, Drop)]
pub enum OneAnswer {
    /// A node of this path was made.
    Made(Path),
    /// A deletion or a check was done.
    Done,
    /// The node that was set has this version now.
    Version(u64),
    /// The node's bytes and version.
    Bytes { bytes: Body, version: u64 },
    /// The names of the node's children.
    Names(Names),
}
