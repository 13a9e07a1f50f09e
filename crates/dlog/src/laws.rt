ghost use Rattle.dlog.specs.Laws.{EmptyWordsAreUnknown, EveryEarlyRunIsLegal, EveryRunIsLegal};
ghost use Rattle.dlog.specs.Laws.{LinesAreRead, SchedulesAreRead};

/// A law: the reader of lines that the run rests on is exact. What it answers for a line is the step whose spelling the
/// line is, or the column at which the line stops to be one.
pub fn lines_are_read()
    ensures { LinesAreRead }
{}

/// A law: the steps of a schedule are those that its lines spell, up to the first line that is past a limit or outside
/// the grammar.
pub fn schedules_are_read()
    ensures { SchedulesAreRead }
{}

/// A law: the machine's transcript of every early schedule is legal.
pub fn every_early_run_is_legal()
    ensures { EveryEarlyRunIsLegal }
{}

/// A law: whatever bytes a schedule has, the transcript of its lines up to the stop is legal.
pub fn every_run_is_legal()
    ensures { EveryRunIsLegal }
{}

/// A law: no command goes on with an empty word, in whose place a word that is not UTF-8 stands.
pub fn empty_words_are_unknown()
    ensures { EmptyWordsAreUnknown }
{}
