//! What holds of the readers of this crate, for each text: laws on their definitions, with no code.

ghost use Rattle.dl_text.specs.Laws.{NumbersAreExact, HexIsExact, FieldsAreExact, WordsAreExact};
ghost use Rattle.dl_text.specs.Laws.{WholeNumbersAreRead, LinesEndAtFeeds};

use crate::word::Word;

/// Each number is spelt in one way and read as it is spelt, and a text that begins with no number stops where none goes
/// on.
pub fn numbers_are_exact()
    ensures { NumbersAreExact }
{}

/// Bytes are spelt in hex in one way and read as they are spelt, and a text that begins with none stops where none goes
/// on.
pub fn hex_is_exact()
    ensures { HexIsExact }
{}

/// Names, places and lists of payloads are spelt in one way and read as they are spelt, and a text that begins with none
/// stops where none goes on.
pub fn fields_are_exact()
    ensures { FieldsAreExact }
{}

/// Each word of a closed list is read as it is spelt, and a text that begins with none stops where none goes on,
/// provided that no word of the list hides another.
pub fn words_are_exact<W: Word>()
    ensures { WordsAreExact W.text }
{}

/// A text that is to be one number is read as it is spelt, or stops at the exact column.
pub fn whole_numbers_are_read()
    ensures { WholeNumbersAreRead }
{}

/// The lines of a text end at its line feeds, and what stands behind the last one is a line too.
pub fn lines_end_at_feeds()
    ensures { LinesEndAtFeeds }
{}
