use dl_formats::conf::Conf;
use dl_types::meta_op::MetaOp;

/// What one batch of the journal says: an item of the metadata node.
#[derive(Drop)]
pub(crate) enum Change {
    /// The configuration, with which the tree begins.
    Setup(Conf),
    /// This session was given.
    Connect(u64),
    /// This session ended.
    Expire(u64),
    /// A request was run.
    Ask {
        /// In this session.
        session: u64,
        /// With this number.
        number: u32,
        /// The request.
        op: MetaOp,
    },
}

/// What an item is.
#[derive(Clone, Copy)]
pub(crate) enum Kind {
    /// The configuration.
    Conf,
    /// A session that is given.
    Connect,
    /// A session that ends.
    Expire,
    /// A request.
    Ask,
}
