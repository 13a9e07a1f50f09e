ghost use Rattle.dl_tree.specs.Paths.{PartsAreFound};
ghost use Rattle.dl_tree.specs.Laws.{FailedIsNothing, SetRaisesByOne, OwnerStays, EndedOwnsNone};

/// A request that fails, alone or in part, changes nothing.
pub fn failed_is_nothing()
    ensures { FailedIsNothing }
{}

/// A set raises the version of its node by exactly one, and changes no other node.
pub fn set_raises_by_one()
    ensures { SetRaisesByOne }
{}

/// While a node stays, its owner stays, and neither its version nor its counter falls.
pub fn owner_stays()
    ensures { OwnerStays }
{}

/// A session that ended owns no node, whatever requests other sessions make afterwards.
pub fn ended_owns_none()
    ensures { EndedOwnsNone }
{}

/// A part below a path has that path as its parent, and itself as its name.
pub fn parts_are_found()
    ensures { PartsAreFound }
{}
