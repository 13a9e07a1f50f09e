//! What recovery rests on, of the placement of entries. Each function is empty: its clause is the law.

ghost use Rattle.dl_quorum.specs.Laws.{HasWriteQuorum, PlacesDiffer, AcksMeetDenials};
ghost use Rattle.dl_quorum.specs.Laws.{CoversDenyAll, CountsOnlyMembers, BookiesMeet};
ghost use Rattle.dl_quorum.specs.Laws.{LaterPiecesKeep, CoversBlockAll, CoversArePlaces};

/// A write set has `qw` places, and they differ.
pub fn write_set_places_differ()
    ensures size { HasWriteQuorum }
    ensures differ { PlacesDiffer }
{}

/// An ack quorum of a write set and a denial of it share a place of it.
pub fn acks_meet_denials()
    ensures { AcksMeetDenials }
{}

/// A set covers exactly where it has at least `qw - qa + 1` members of the write set of every entry.
pub fn covers_deny_all()
    ensures { CoversDenyAll }
{}

/// The same laws on the bookies of a ledger whose ensemble was changed piece by piece, for which each place stands for its
/// bookie: an ack quorum and as many as deny it share a bookie, a further piece leaves the write sets of the entries
/// before it, and a cover of the last piece blocks the write sets of all entries from its first on.
pub fn bookies_stand_at_places()
    ensures places { CountsOnlyMembers }
    ensures meet { BookiesMeet }
    ensures later { LaterPiecesKeep }
    ensures cover { CoversBlockAll }
{}

/// A set of bookies covers the last piece exactly where the places of those bookies cover.
pub fn covers_are_of_places()
    ensures { CoversArePlaces }
{}
