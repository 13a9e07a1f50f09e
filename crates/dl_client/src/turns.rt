//! The turns of tasks, as turns of an order that ends with an event.

ghost use Rattle.std.specs.Prelude.{◌≡◌};
ghost use Rattle.dl_types.specs.declared.meta_op.MetaOp.{MetaOp};
ghost use Rattle.dl_msg.specs.declared.turn.Turn.TheVariants.{Ask};
ghost use Rattle.dl_transcript.specs.declared.event.Event.TheVariants as event;
ghost use Rattle.dl_client.specs.Turns.{turn_by};

use dl_msg::turn::Turn;
use dl_transcript::event::Event;
use dl_types::client::ClientId;
use dl_types::dlsn::Dlsn;
use dl_types::name::Name;

/// The first turn of a task, by which it asks for its first request, as that of an order.
pub(crate) fn first_turn<A: Drop>(turn: Turn<A>) -> Turn<Event>
    ensures { (op : MetaOp) → turn ≡ Ask op → result ≡ Ask op }
{
    match turn {
        Turn::Wait => Turn::Wait,
        Turn::Ask(request) => Turn::Ask(request),
        Turn::Tell(letters) => Turn::Tell(letters),
        Turn::Done(_) => Turn::Wait,
        Turn::Refused(refusal) => Turn::Refused(refusal),
    }
}

/// The turn of a task that is done once the stream is there.
pub(crate) fn created(turn: Turn<()>, client: ClientId, stream: Name) -> Turn<Event>
    ensures { result ≡ turn_by (λ u. event.Created client stream) turn }
{
    match turn {
        Turn::Wait => Turn::Wait,
        Turn::Ask(request) => Turn::Ask(request),
        Turn::Tell(letters) => Turn::Tell(letters),
        Turn::Done(()) => Turn::Done(Event::Created { client, stream }),
        Turn::Refused(refusal) => Turn::Refused(refusal),
    }
}

/// The turn of a task that is done once the stream is gone.
pub(crate) fn removed(turn: Turn<()>, client: ClientId, stream: Name) -> Turn<Event>
    ensures { result ≡ turn_by (λ u. event.Removed client stream) turn }
{
    match turn {
        Turn::Wait => Turn::Wait,
        Turn::Ask(request) => Turn::Ask(request),
        Turn::Tell(letters) => Turn::Tell(letters),
        Turn::Done(()) => Turn::Done(Event::Removed { client, stream }),
        Turn::Refused(refusal) => Turn::Refused(refusal),
    }
}

/// The turn of a task that is done with the point of the stream.
pub(crate) fn truncated(turn: Turn<Dlsn>, client: ClientId, stream: Name) -> Turn<Event>
    ensures { result ≡ turn_by (event.Truncated client stream) turn }
{
    match turn {
        Turn::Wait => Turn::Wait,
        Turn::Ask(request) => Turn::Ask(request),
        Turn::Tell(letters) => Turn::Tell(letters),
        Turn::Done(place) => Turn::Done(Event::Truncated {
            client,
            stream,
            place,
        }),
        Turn::Refused(refusal) => Turn::Refused(refusal),
    }
}

/// The turn of a task that is done with the count of the segments that it has deleted.
pub(crate) fn purged(turn: Turn<u64>, client: ClientId, stream: Name) -> Turn<Event>
    ensures { result ≡ turn_by (event.Purged client stream) turn }
{
    match turn {
        Turn::Wait => Turn::Wait,
        Turn::Ask(request) => Turn::Ask(request),
        Turn::Tell(letters) => Turn::Tell(letters),
        Turn::Done(count) => Turn::Done(Event::Purged {
            client,
            stream,
            count,
        }),
        Turn::Refused(refusal) => Turn::Refused(refusal),
    }
}
