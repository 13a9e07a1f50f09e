//! What it means that a transcript is legal as to some of its events.

ghost use Rattle.dl_law_legal.specs.Laws.{LegalInPart};
ghost use Rattle.dl_law_legal.specs.Words.{RulesCount};

/// A transcript that is legal as to more events is so as to fewer, and as to all events it is so
/// where it is legal.
pub fn legal_in_part()
    ensures { LegalInPart }
{}

/// Where the rules of sessions are kept, the sessions that join are 1, 2, 3 and so on; and where
/// that of records is, so are the records that are taken from each client.
pub fn rules_count()
    ensures { RulesCount }
{}
