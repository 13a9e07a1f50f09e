//! What the task of an order does at what it hears. The name that an event needs is shared before the task moves.

ghost use Rattle.std.specs.Prelude.{◌≡◌, ℕ, List, IfOk, OnErr};
ghost use Rattle.dl_rules_stream.specs.Truncates.{TruncateArgs};
ghost use Rattle.dl_requests.specs.Tasks.{View, HearsBy};
ghost use Rattle.dl_transcript.specs.declared.event.Event.TheVariants as event;
ghost use Rattle.dl_namespace.specs.Making.{make_order, MakesFor};
ghost use Rattle.dl_namespace.specs.Removing.{remove_order, RemovesFor};
ghost use Rattle.dl_trunc.specs.Truncating.{truncate_order, TruncatesFor};
ghost use Rattle.dl_trunc.specs.Purging.{purge_order, PurgesFor};

use crate::turns::{created, purged, removed, truncated};
use dl_msg::heard::Heard;
use dl_msg::turn::Turn;
use dl_namespace::make::Make;
use dl_namespace::remove::Remove;
use dl_transcript::event::Event;
use dl_trunc::purge::Purge;
use dl_trunc::truncate::Truncate;
use dl_types::client::ClientId;
use dl_types::memory::NoMemory;
use dl_types::name::Name;

/// An order that makes a stream hears something.
pub(crate) fn make_hears(
    task: &mut Make,
    client: ClientId,
    stream: &Name,
    heard: &Heard,
) -> Result<Turn<Event>, NoMemory>
    ensures goes { IfOk result (λ turn. (v : View (List ℕ)) → MakesFor v task.old
        → HearsBy (λ u. event.Created client stream.now) make_order MakesFor v heard.now turn
        task.new) }
    ensures kept { OnErr result (task.new ≡ task.old) }
{
    let stream = stream.share()?;
    let turn = task.hear(heard)?;
    Ok(created(turn, client, stream))
}

/// An order that removes a stream hears something.
pub(crate) fn remove_hears(
    task: &mut Remove,
    client: ClientId,
    stream: &Name,
    heard: &Heard,
) -> Result<Turn<Event>, NoMemory>
    ensures goes { IfOk result (λ turn. (v : View (List ℕ)) → RemovesFor v task.old
        → HearsBy (λ u. event.Removed client stream.now) remove_order RemovesFor v heard.now turn
        task.new) }
    ensures kept { OnErr result (task.new ≡ task.old) }
{
    let stream = stream.share()?;
    let turn = task.hear(heard)?;
    Ok(removed(turn, client, stream))
}

/// An order that moves the point of a stream hears something.
pub(crate) fn truncate_hears(
    task: &mut Truncate,
    client: ClientId,
    stream: &Name,
    heard: &Heard,
) -> Result<Turn<Event>, NoMemory>
    ensures goes { IfOk result (λ turn. (v : View TruncateArgs) → TruncatesFor v task.old
        → HearsBy (event.Truncated client stream.now) truncate_order TruncatesFor v heard.now turn
        task.new) }
    ensures kept { OnErr result (task.new ≡ task.old) }
{
    let stream = stream.share()?;
    let turn = task.hear(heard)?;
    Ok(truncated(turn, client, stream))
}

/// An order that deletes the segments below the point of a stream hears something.
pub(crate) fn purge_hears(
    task: &mut Purge,
    client: ClientId,
    stream: &Name,
    heard: &Heard,
) -> Result<Turn<Event>, NoMemory>
    ensures goes { IfOk result (λ turn. (v : View (List ℕ)) → PurgesFor v task.old
        → HearsBy (event.Purged client stream.now) purge_order PurgesFor v heard.now turn
        task.new) }
    ensures kept { OnErr result (task.new ≡ task.old) }
{
    let stream = stream.share()?;
    let turn = task.hear(heard)?;
    Ok(purged(turn, client, stream))
}
