use crate::one_op::OneOp;
use crate::one_ops::OneOps;

/// A request on the metadata tree: one operation, or several that all happen or none (ZooKeeper documentation,
/// "multi").
#[derive(Clone, Debug, Drop)]
pub enum MetaOp {
    /// One operation.
    One(OneOp),
    /// Operations in order, each on the tree that the earlier ones leave, as one change.
    Multi { ops: OneOps },
}
