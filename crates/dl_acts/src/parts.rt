ghost use Rattle.std.specs.Prelude.{◌≡◌, Some};
ghost use Rattle.dl_acts.specs.Parts.{parts_behind};

use crate::asked::Asked;
use crate::front::Front;
use crate::records::Records;
use dl_msg::letters::Letters;
use dl_transcript::event::Event;
use dl_types::client::ClientId;
use dl_types::session::SessionId;
use std::alloc::Global;

/// What a client does, by its parts: a client that has moved on takes no memory to say it. It sends messages to bookies and then a
/// request to the metadata node; it shows its front, then records that were taken, and then an event.
#[derive(Debug, Drop)]
pub struct Parts {
    /// The client.
    pub client: ClientId,
    /// Its session.
    pub session: SessionId,
    /// The messages for bookies.
    pub told: Letters,
    /// The request, where there is one.
    pub asked: Option<Asked>,
    /// What is shown first.
    pub front: Front,
    /// The records that were taken, where some were.
    pub records: Option<Records>,
    /// The event at the end, where there is one.
    pub last: Option<Event>,
}

impl Parts {
    /// A client that only shows this front.
    pub fn new(alloc: Global, client: ClientId, session: SessionId, front: Front) -> Parts
        ensures { result ≡ parts_behind client session front }
    {
        Parts {
            client,
            session,
            told: Letters::new(alloc),
            asked: None,
            front,
            records: None,
            last: None,
        }
    }

    /// A client that shows this front, and sends these messages.
    pub fn telling(client: ClientId, session: SessionId, front: Front, told: Letters) -> Parts
        ensures { result ≡ record (parts_behind client session front) { told = told } }
    {
        Parts {
            client,
            session,
            told,
            asked: None,
            front,
            records: None,
            last: None,
        }
    }

    /// A client that shows this front, and makes this request.
    pub fn asking(
        alloc: Global,
        client: ClientId,
        session: SessionId,
        front: Front,
        asked: Asked,
    ) -> Parts
        ensures { result ≡ record (parts_behind client session front) { asked = Some asked } }
    {
        Parts {
            client,
            session,
            told: Letters::new(alloc),
            asked: Some(asked),
            front,
            records: None,
            last: None,
        }
    }

    /// A client that shows this front, and then this event.
    pub fn ending(
        alloc: Global,
        client: ClientId,
        session: SessionId,
        front: Front,
        last: Event,
    ) -> Parts
        ensures { result ≡ record (parts_behind client session front) { last = Some last } }
    {
        Parts {
            client,
            session,
            told: Letters::new(alloc),
            asked: None,
            front,
            records: None,
            last: Some(last),
        }
    }
}
