//! What holds of messages, for all of them: laws on their definitions, with no code.

ghost use Rattle.dl_msg.specs.Laws.{MessagesAreExact, WholeByKind};

/// Messages are spelt in one way and read as they are spelt.
pub fn messages_are_exact()
    ensures { MessagesAreExact }
{}

/// An addition, a copy and an answer with an entry are whole exactly where their bytes spell an entry; messages of the
/// other kinds are whole.
pub fn whole_by_kind()
    ensures { WholeByKind }
{}
