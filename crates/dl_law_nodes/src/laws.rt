//! What storage nodes keep, whatever happens to them, and what tasks may rest on. Each function is empty: its clause is the law.

ghost use Rattle.dl_law_nodes.specs.Laws.{GrowthLasts, AllPromisesLast, NodesBegin, MessagesAreTaken, CommitsKeep};
ghost use Rattle.dl_law_nodes.specs.Laws.{AllNodesSurvive, AllFencesLast, CoversSeal, AllRecoveriesHold, AllWritersHold};
ghost use Rattle.dl_law_nodes.specs.Laws.{SealsEndStoring, StoredIsReplicated};

/// What a message, a recovery or a writer knows of the storage nodes stays true as they go on: what is stored stays stored, fences
/// last, and a denial with a fence is for good.
pub fn promises_last()
    ensures growth { GrowthLasts }
    ensures promises { AllPromisesLast }
{}

/// Storage nodes that were just made have promised nothing yet; of one that is loaded from a file, its items have.
pub fn nodes_begin()
    ensures { NodesBegin }
{}

/// A storage node answers nothing but what is on its disk, and behind a fence of a ledger it adds no entry of it ("fenced" in
/// BookKeeper's documentation).
pub fn messages_are_taken()
    ensures { MessagesAreTaken }
{}

/// The replies that leave with a commit tell nothing but what the commit has made durable.
pub fn commits_keep()
    ensures { CommitsKeep }
{}

/// What a storage node has answered outlasts a stop inside a commit, the end of its process, loads and loads that fail. A lost disk
/// counts as it was, and answers no more.
pub fn nodes_survive()
    ensures { AllNodesSurvive }
{}

/// Behind an answer that a ledger is fenced stands a fence on the disk, behind which no entry of the ledger is added; once bookies
/// that cover the ledger are fenced, an entry that is on none of their disks can't be stored any more.
pub fn fences_last()
    ensures last { AllFencesLast }
    ensures cover { CoversSeal }
{}

/// The counts that a recovery tells are stored, the entries that it has found are held, and the end that it finds is sealed.
pub fn recoveries_hold()
    ensures { AllRecoveriesHold }
{}

/// What a writer has confirmed is stored by an ack quorum of each entry's write set.
pub fn writers_hold()
    ensures { AllWritersHold }
{}

/// A recovery that has ended keeps all that was confirmed: ack quorums and denials share a bookie.
pub fn seals_end_storing()
    ensures { SealsEndStoring }
{}

/// An entry that is stored has as many copies on different bookies as its ledger's ack quorum says, also after its ensemble is
/// changed for the entries behind it.
pub fn stored_is_replicated()
    ensures { StoredIsReplicated }
{}
