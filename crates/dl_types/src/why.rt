/// Why an operation on the metadata tree fails (ZooKeeper documentation, "KeeperException").
#[derive(Clone, Copy, Debug, PartialEq, Eq)]
pub enum Why {
    /// The node, or the parent of a node to be made, is not there.
    NoNode,
    /// A node of this path is there.
    NodeExists,
    /// A version was named, and this one stands.
    BadVersion(u64),
    /// The node has so many children, or is the root.
    NotEmpty(u64),
    /// An ephemeral node has no children.
    EphemeralParent,
    /// The parent's counter, or the node's version, is at its end.
    Spent,
}
