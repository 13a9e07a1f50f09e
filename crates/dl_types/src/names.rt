use crate::list::ListOf;
use crate::path::Path;

/// The names of a node's children, in byte order, without their `/`.
pub type Names = ListOf<Path>;
