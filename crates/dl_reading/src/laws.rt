//! What holds of all readings: laws on their definitions, with no code.

ghost use Rattle.dl_reading.specs.Laws.{FirstFaultWins};

/// A reading of two has a value exactly by the values of both, and has the fault of the first that has one.
pub fn first_fault_wins<A, B, F>()
    ensures { FirstFaultWins A B F }
{}
