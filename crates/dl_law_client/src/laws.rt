//! What a client shows of itself and sends, whatever it takes.

ghost use Rattle.dl_law_client.specs.Laws.{EachClientLeads};

/// Whatever a client takes: its records are counted on, a read begins on its reader's stream and
/// while none is under way, its events say nothing of other clients, and its letters are its own,
/// requests of its session among them.
pub fn each_client_leads()
    ensures { EachClientLeads }
{}
