//! What holds of the rules of the streams: laws on their definitions, with no code.

ghost use Rattle.dl_rules_stream.specs.Laws.{NamesAreRead, EntriesAreSent};

/// The name of a child of `segs` or of `lock` is read as the segment or the member that it names, and as no other.
pub fn names_are_read()
    ensures { NamesAreRead }
{}

/// A log writer keeps the rows of as many entries as its ledger's writer has sent.
pub fn entries_are_sent()
    ensures { EntriesAreSent }
{}
