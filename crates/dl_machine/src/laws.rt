//! What holds of every run of the machine: laws on its definitions, with no code.

ghost use Rattle.dl_machine.specs.Laws.{RunsAreFolds, FailuresAside, LettersStay, DurableItemsStay, SettlingEndsQuiet, SessionsAreGiven};
ghost use Rattle.dl_machine.specs.RangeLaws.{EventsFitTheirLines};

/// A run is the row of the atomic steps of its lines: it ends in their last state, and shows their
/// events.
pub fn runs_are_folds()
    ensures { RunsAreFolds }
{}

/// Where no device fails, the atomic steps of a line are those of the rules.
pub fn failures_aside()
    ensures { FailuresAside }
{}

/// No atomic step takes back a letter, its delivery or an item of the metadata node.
pub fn letters_stay()
    ensures { LettersStay }
{}

/// No atomic step takes back a durable item of a storage node, where it is known what its disk
/// holds; and of each node that is up that is known.
pub fn durable_items_only_grow()
    ensures { DurableItemsStay }
{}

/// Settling leaves nothing to settle, as long as no more messages are sent than a run may have.
pub fn settling_ends_quiet()
    ensures { SettlingEndsQuiet }
{}

/// Each client that has joined is in a session that the metadata node gave.
pub fn sessions_are_given()
    ensures { SessionsAreGiven }
{}

/// The values of each event of a run are such as its line takes, and so are the numbers of the
/// lines, within the limits of a run and in the replay of every schedule.
pub fn events_fit_their_lines()
    ensures { EventsFitTheirLines }
{}
