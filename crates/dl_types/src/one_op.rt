use crate::body::Body;
use crate::mode::Mode;
use crate::path::Path;

/// One operation on the metadata tree (ZooKeeper documentation, "ZooKeeper API"). A version that is named has to be the
/// node's; `None` fits any.
#[derive(Clone, Debug, Drop)]
pub enum OneOp {
    /// Make a node.
    Create {
        path: Path,
        bytes: Body,
        mode: Mode,
    },
    /// Delete a node that has no children.
    Delete {
        path: Path,
        version: Option<u64>,
    },
    /// Give a node new bytes.
    Set {
        path: Path,
        bytes: Body,
        version: Option<u64>,
    },
    /// See that a node is there.
    Check {
        path: Path,
        version: Option<u64>,
    },
    /// Read a node's bytes.
    Get {
        path: Path,
    },
    /// List the names of a node's children.
    Children {
        path: Path,
    },
}
