ghost use Rattle.std.specs.Prelude.{◌≡◌};

/// A DLSN: the place of a record in its stream (DistributedLog documentation, "DLSN"). Places are compared by segment,
/// then entry, then slot, and rise along a stream.
#[derive(Clone, Copy, Debug, PartialEq, Eq, PartialOrd, Ord, Hash)]
pub struct Dlsn {
    /// The log segment, from 1.
    pub segment: u64,
    /// The entry of the segment's ledger, from 0.
    pub entry: u64,
    /// The record among those of the entry, from 0.
    pub slot: u32,
}

impl Dlsn {
    ghost use Rattle.dl_types.specs.Places.{is_before};

    /// Whether this place stands before the other one.
    pub fn is_before(self, other: Dlsn) -> bool
        ensures { result ≡ is_before self other }
    {
        self < other
    }
}
