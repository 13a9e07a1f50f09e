use crate::list::ListOf;
use crate::one_op::OneOp;

/// The operations of a request of several, in their order.
pub type OneOps = ListOf<OneOp>;
