use dl_quorum::place_set::PlaceSet;

/// What a recovery lacks, and from whom it has it. A set has the places of bookies in the ledger's ensemble.
#[derive(Clone, Copy, Debug, PartialEq, Eq)]
pub enum Missing {
    /// A reply of the metadata node.
    Reply,
    /// A cover that answers with the fenced bit; these have answered.
    Cover(PlaceSet),
    /// The end of an entry: these have denied it with the fenced bit, or else, once it was found, copied it.
    Entry(u64, PlaceSet),
}

/// How far a recovery has come.
#[derive(Clone, Copy, Debug, PartialEq, Eq)]
pub enum Outcome {
    /// It isn't done, or it was refused.
    NotYet(Missing),
    /// The ledger is closed at this count of entries.
    Closed(u64),
    /// The ledger's node is gone.
    Gone,
}
