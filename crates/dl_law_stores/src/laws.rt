//! What the storage nodes of the machine keep, through each of its atomic steps. Each function is empty: its clause is the law.

ghost use Rattle.dl_law_stores.specs.Laws.{StepsKeep, RunsKeep, FencesLastInRuns};
ghost use Rattle.dl_law_stores.specs.Segments.{SegmentRecoveriesHold};
ghost use Rattle.dl_law_stores.specs.Tasks.{LedgerRecoveriesHold, LogWritersHold};

/// An atomic step in which clients tell storage nodes nothing but what is so keeps all promises of letters and nodes, and what was
/// promised before it is so after it.
pub fn steps_keep()
    ensures { StepsKeep }
{}

/// So does every list of atomic steps; and nothing is promised before a setup.
pub fn runs_keep()
    ensures { RunsKeep }
{}

/// After every list of atomic steps from before a setup, whoever said in a letter that a ledger is fenced has its fence on the disk, and
/// behind it no item adds an entry of the ledger.
pub fn fences_last_in_runs()
    ensures { FencesLastInRuns }
{}

/// The recovery of a ledger, with its node, tells nothing but what it heard promised, where the pieces that it read are the ledger's own.
pub fn ledger_recoveries_hold()
    ensures { LedgerRecoveriesHold }
{}

/// So does the recovery of a segment, over that of its ledger.
pub fn segment_recoveries_hold()
    ensures { SegmentRecoveriesHold }
{}

/// The writer of a log segment tells nothing but what is so: the counts that it sends are stored.
pub fn log_writers_hold()
    ensures { LogWritersHold }
{}
