use crate::target::Located;

/// How a recovery has ended, where it has.
#[derive(Clone, Copy, Debug)]
pub enum Ending {
    /// It goes on, or it was refused while the ledger's node was there.
    Open,
    /// The ledger is closed: its node, and its ensemble.
    Closed(Located),
    /// The ledger's node is gone.
    Gone,
}
