/// What a bookie has too little of where it has no room for an item.
#[derive(Clone, Copy, Debug, PartialEq, Eq)]
pub enum Resource {
    /// Pages of its pool.
    Pool,
    /// Places in its index of entries.
    Index,
    /// Ledgers in its table of them.
    Ledgers,
    /// Places in its queue.
    Queue,
    /// Room in its journal.
    Journal,
}
