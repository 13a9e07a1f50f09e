use dl_types::meta_op::MetaOp;

/// A request to the metadata node, with its number in the session.
#[derive(Debug, Drop)]
pub struct Asked {
    /// Its number: the requests of a session count from 1.
    pub number: u32,
    /// The operation.
    pub op: MetaOp,
}
