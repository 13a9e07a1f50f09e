ghost use Rattle.std.specs.Prelude.{◌≡◌, IfOk, OnErr};
ghost use Rattle.dl_rules_client.specs.Acts.{ClientArgs};
ghost use Rattle.dl_rules_client.specs.Views as rule;
ghost use Rattle.dl_client.specs.Standing.{OrderStands};
ghost use Rattle.dl_client.specs.Hearing.{OrderGoes};

use crate::doing::Doing;
use dl_msg::heard::Heard;
use dl_msg::turn::Turn;
use dl_transcript::event::Event;
use dl_types::client::ClientId;
use dl_types::memory::NoMemory;
use dl_types::name::Name;

/// The order under way: the number of its line, which is the tag of its messages, its stream, and what it does.
#[derive(Drop)]
pub(crate) struct Order {
    pub(crate) line: u32,
    pub(crate) stream: Name,
    pub(crate) doing: Doing,
}

impl Order {
    /// The order of this client hears a reply to its request or a message that is tagged as its own. Want of memory leaves it as it
    /// is.
    pub(crate) fn hear(&mut self, client: ClientId, heard: &Heard) -> Result<Turn<Event>, NoMemory>
        ensures goes { IfOk result (λ turn. (me : ClientArgs) (o : rule.Order)
            → client ≡ me.number → OrderStands me o self.old
            → OrderGoes me o heard.now turn self.new) }
        ensures kept { OnErr result (self.new ≡ self.old) }
    {
        self.doing.hear(client, &self.stream, heard)
    }
}
