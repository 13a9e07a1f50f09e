ghost use Rattle.std.specs.Prelude.{◌≡◌, IfOk};

use dl_types::body::Body;
use dl_types::memory::NoMemory;

/// A node of the metadata tree (ZooKeeper documentation, "ZNodes" and "Stat structure").
#[derive(Debug, Drop)]
pub struct Node {
    /// The node's bytes.
    pub bytes: Body,
    /// How often the node was set since it was made.
    pub version: u64,
    /// The session that the node goes with, if any.
    pub owner: Option<u64>,
    /// The counter of the node's next child with a counted name.
    pub counter: u64,
}

impl Node {
    /// The same node; its bytes are shared.
    pub(crate) fn share(&self) -> Result<Node, NoMemory>
        ensures { IfOk result (λ node. node ≡ self.now) }
    {
        Ok(Node {
            bytes: self.bytes.share()?,
            version: self.version,
            owner: self.owner,
            counter: self.counter,
        })
    }
}

/// What a look at a node shows.
#[derive(Clone, Copy, Debug)]
pub struct NodeView<'a> {
    /// The node's bytes.
    pub bytes: &'a [u8],
    /// How often the node was set since it was made.
    pub version: u64,
    /// The session that the node goes with, if any.
    pub owner: Option<u64>,
    /// The counter of the node's next child with a counted name.
    pub counter: u64,
}
