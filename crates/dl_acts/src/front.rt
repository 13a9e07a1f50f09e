use crate::sent_entry::SentEntry;
use dl_transcript::event::Event;
use dl_types::dlsn::Dlsn;
use dl_types::list::ListOf;
use dl_types::row::Origin;

/// What a client shows first.
#[derive(Debug, Drop)]
pub enum Front {
    /// Nothing.
    Nothing,
    /// This event.
    Shows(Event),
    /// What its writer did: records of the client are acknowledged at these places, and then an entry was sent, where one was.
    Writes {
        spots: ListOf<(Origin, Dlsn)>,
        sent: Option<SentEntry>,
    },
}
