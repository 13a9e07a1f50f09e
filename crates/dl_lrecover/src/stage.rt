use crate::phase::Phase;
use crate::target::Located;

/// What a recovery waits for, with the value of the ledger's node that it last heard or had set, and the version of that.
#[derive(Clone, Copy, Debug)]
pub(crate) enum Stage {
    /// For the node.
    GettingNode {
        node: Option<Located>,
    },
    /// For the mark on the node.
    Marking {
        node: Located,
        version: u64,
    },
    /// For bookies, in this phase.
    Searching {
        node: Located,
        version: u64,
        phase: Phase,
    },
    /// For the node to be closed at a count.
    Closing {
        node: Located,
        version: u64,
        count: u64,
    },
    /// For nothing: the ledger is closed.
    IsClosed {
        node: Located,
    },
    /// For nothing: its node is gone.
    IsGone {
        node: Option<Located>,
    },
    /// For nothing: it was refused.
    WasRefused {
        node: Option<Located>,
    },
}
