//! What holds of every journal, on any depot: laws on the definitions, with no code.

ghost use Rattle.dl_journal.specs.Laws.{OneList, NotBoth, OnePlace, BodyInPlace, LeavesStanding};

use dl_depot::depot::Depot;

/// The layout of a journal is read in one way: bytes have at most one list of batches in force; where they have one they
/// break nothing; and where they break the layout, its first broken part has one place. So what `load` gives is all that
/// is in force, and it refuses exactly the bytes that are no journal.
pub fn journals_have_one_reading()
    ensures one_list { OneList }
    ensures not_both { NotBoth }
    ensures one_place { OnePlace }
{}

/// The body of a commit stands in the file where `body_place` told it to begin, for as long as its batch is in force.
pub fn bodies_are_in_place()
    ensures { BodyInPlace }
{}

/// A journal is left as it stands by work on other files, and by a fuse that is set on a file or taken away.
pub fn journals_are_left_standing<D: Depot>(_old: &D, _new: &D)
    ensures { LeavesStanding (D.view _old.now) (D.view _new.now) }
{}
