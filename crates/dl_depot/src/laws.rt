//! What holds of the meanings of every depot: laws on their definitions, with no code.

ghost use Rattle.dl_depot.specs.Laws.{RiseIsGreater};

/// A count of faults that rose is greater than it was, unless it stood at the greatest u64 already.
pub fn rise_is_greater()
    ensures { RiseIsGreater }
{}
