/// What kind of node a creation makes (ZooKeeper documentation, "create modes"). A lasting node stays until it is
/// deleted; an ephemeral one goes with its session; the name of a counted one ends in the parent's counter, as of a
/// sequential node.
#[derive(Clone, Copy, Debug, PartialEq, Eq)]
pub enum Mode {
    /// Lasting, with the name as given.
    Lasting,
    /// Owned by the session, with the name as given.
    Ephemeral,
    /// Lasting, with the counter added to the name.
    Counted,
    /// Owned by the session, with the counter added to the name.
    EphemeralCounted,
}
