use dl_msg::letters::Letters;
use dl_quorum::place_set::PlaceSet;

/// How far the search for the end of a fenced ledger has come. A set has the places of the bookies that were heard in the phase.
#[derive(Clone, Copy, Debug)]
pub(crate) enum Phase {
    /// Bookies have answered with the fenced bit; this is the greatest of their counts.
    Fencing {
        answered: PlaceSet,
        greatest: u64,
    },
    /// Bookies have denied the entry with the fenced bit; copies will carry the count `start`.
    Reading {
        start: u64,
        entry: u64,
        denials: PlaceSet,
    },
    /// Bookies have copied the entry.
    Copying {
        start: u64,
        entry: u64,
        copied: PlaceSet,
    },
}

/// A step of the search.
#[derive(Debug, Drop)]
pub(crate) enum Step {
    /// It is at this phase now, and tells these messages, if any.
    Goes(Phase, Letters),
    /// It has found the end of the ledger: so many entries.
    Ended(u64),
    /// It would go on, and no number is left for an entry.
    Exhausted,
}
