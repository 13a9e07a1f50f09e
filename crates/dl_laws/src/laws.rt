//! What holds of every run of the machine, as its transcript shows it.

ghost use Rattle.dl_laws.specs.Laws.{EachStepLeads, EveryRunKeepsItsRules, SessionsJoinInOrder, RecordsAreCounted, ReadsHaveReaders, SessionsAndRequestsAreKept, RequestsAreNumbered};

/// Each atomic step, those of failing devices among them, shows events that keep their rules, as
/// far as these are proved yet, and leaves a state that what was shown then tells of: so does
/// every list of them.
pub fn each_step_leads()
    ensures { EachStepLeads }
{}

/// The transcript of every schedule is legal as to the events whose rules are proved yet, whatever
/// its devices do; and so is what the replay of any bytes prints.
pub fn every_run_keeps_its_rules()
    ensures { EveryRunKeepsItsRules }
{}

/// Sessions are given in order: the first that joins is 1, and each further one is one more than
/// the last; a session expires at most once, and only after it joined.
pub fn sessions_join_in_order()
    ensures { SessionsJoinInOrder }
{}

/// The records that are taken from a client are counted from 1, one by one, also over its crashes.
pub fn records_are_counted()
    ensures { RecordsAreCounted }
{}

/// A read begins on the stream on which its client's reader was opened last, after the client
/// joined, and only while no read of this client is under way.
pub fn reads_have_readers()
    ensures { ReadsHaveReaders }
{}

/// Each session is of one process of one client, and so is each letter and each reply that waits;
/// each request that ran is one of the orders' requests, was admitted, and runs once; each reply
/// is the answer of the run of its number, or says that its session has ended, which it then has;
/// and storage nodes answer what they are asked.
pub fn sessions_and_requests_are_kept()
    ensures { SessionsAndRequestsAreKept }
{}

/// The requests of a client's process are numbered from 1 on, each number once, up to as many as
/// it has made by all that it took: so a reply with the number of its last request answers that
/// one alone.
pub fn requests_are_numbered()
    ensures { RequestsAreNumbered }
{}
