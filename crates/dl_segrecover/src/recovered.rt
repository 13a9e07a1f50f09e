/// What the recovery of a segment comes to.
#[derive(Clone, Copy, Debug, PartialEq, Eq)]
pub enum Recovered {
    /// The segment is complete: it has so many entries, those of its closed ledger.
    Closed(u64),
    /// Another client has completed the segment meanwhile: the stream has to be looked at again.
    Again,
}
