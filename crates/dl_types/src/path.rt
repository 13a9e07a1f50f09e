use crate::shared::Shared;

/// The kind of a path's bytes.
#[derive(Clone, Copy, Debug)]
pub struct PathKind;

/// The path of a node of the metadata tree: `/`, or a `/` before each part (ZooKeeper documentation, "Data model and
/// the hierarchical namespace"). A listing's names are paths of one part without its `/`. Paths stand in byte order.
pub type Path = Shared<PathKind>;
