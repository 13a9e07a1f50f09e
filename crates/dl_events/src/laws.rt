//! What holds of the reader of lines on lists, for each line: a law on its definition, with no code.

ghost use Rattle.dl_events.specs.Laws.{EventsAreExact};

/// The reader on lists reads exactly the lines of the grammar, as the number and the event that they spell, and stops at
/// each other line at the exact column.
pub fn events_are_exact()
    ensures { EventsAreExact }
{}
