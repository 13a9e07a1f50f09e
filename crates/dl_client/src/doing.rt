ghost use Rattle.std.specs.Prelude.{◌≡◌, IfOk, OnErr};
ghost use Rattle.dl_rules_client.specs.Acts.{ClientArgs};
ghost use Rattle.dl_rules_client.specs.Views as rule;
ghost use Rattle.dl_client.specs.Standing.{DoingStands};
ghost use Rattle.dl_client.specs.Hearing.{DoingGoes};

use crate::tasks::{make_hears, purge_hears, remove_hears, truncate_hears};
use dl_msg::heard::Heard;
use dl_msg::turn::Turn;
use dl_namespace::make::Make;
use dl_namespace::remove::Remove;
use dl_transcript::event::Event;
use dl_trunc::purge::Purge;
use dl_trunc::truncate::Truncate;
use dl_types::client::ClientId;
use dl_types::memory::NoMemory;
use dl_types::name::Name;

/// What an order does: the task that runs it.
#[derive(Drop)]
pub(crate) enum Doing {
    /// It makes the stream.
    Makes(Make),
    /// It removes the stream.
    Removes(Remove),
    /// It moves the point of the stream.
    Truncates(Truncate),
    /// It deletes the segments below the point.
    Purges(Purge),
}

impl Doing {
    /// The order of this client on this stream hears a reply to its request or a message that is tagged as its own. Want of memory
    /// leaves it as it is.
    pub(crate) fn hear(
        &mut self,
        client: ClientId,
        stream: &Name,
        heard: &Heard,
    ) -> Result<Turn<Event>, NoMemory>
        ensures goes { IfOk result (λ turn. (me : ClientArgs) (o : rule.Order)
            → client ≡ me.number → stream.now ≡ o.stream → DoingStands me o self.old
            → DoingGoes me o heard.now turn self.new) }
        ensures kept { OnErr result (self.new ≡ self.old) }
    {
        match self {
            Doing::Makes(task) => make_hears(task, client, stream, heard),
            Doing::Removes(task) => remove_hears(task, client, stream, heard),
            Doing::Truncates(task) => truncate_hears(task, client, stream, heard),
            Doing::Purges(task) => purge_hears(task, client, stream, heard),
        }
    }
}
