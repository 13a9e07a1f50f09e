//! What holds of the reader of lines on lists, for each line: laws on its definition, with no code.

ghost use Rattle.dl_schedule.specs.Laws.{LinesAreExact, EarlyLinesAreExact};

/// The reader on lists reads exactly the lines of the grammar, as the steps that they spell, and stops at each other line
/// at the exact column.
pub fn lines_are_exact()
    ensures { LinesAreExact }
{}

/// So does the reader of early schedules, by which a run goes over its lines, for the lines that they may have.
pub fn early_lines_are_exact()
    ensures { EarlyLinesAreExact }
{}
