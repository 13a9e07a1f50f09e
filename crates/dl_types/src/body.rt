use crate::shared::Shared;

/// The kind of a node's bytes.
#[derive(Clone, Copy, Debug)]
pub struct BodyKind;

/// The bytes of a node of the metadata tree (ZooKeeper's "data" of a znode).
pub type Body = Shared<BodyKind>;
