//! What holds of entries, for all stored records: a law on their definitions, with no code.

ghost use Rattle.dl_record.specs.Laws.{EntriesHaveOneSpelling};

/// An entry that was written is read again as the same stored records, and no two lists of stored records have the same
/// bytes.
pub fn entries_have_one_spelling()
    ensures { EntriesHaveOneSpelling }
{}
