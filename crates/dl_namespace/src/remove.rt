ghost use Rattle.std.specs.Prelude.{◌≡◌, ℕ, List, IfOk, OnErr};
ghost use Rattle.dl_msg.specs.declared.heard.Heard.{Heard};
ghost use Rattle.dl_rules_stream.specs.Removes as rule;
ghost use Rattle.dl_requests.specs.Turns.{turn_of};
ghost use Rattle.dl_requests.specs.Tasks.{View, new_view, GoesBy, Hears};
ghost use Rattle.dl_namespace.specs.Removing.{remove_order, RemovesAt, RemovesFor};

use crate::remove_answers::after_answer;
use crate::remove_stage::RemoveStage;
use dl_msg::heard::Heard;
use dl_msg::turn::Turn;
use dl_requests::moves::take;
use dl_requests::streams::remove_stream;
use dl_types::memory::NoMemory;
use dl_types::name::Name;
use std::alloc::Global;
use std::marker::Model;

/// A task that removes a stream: its lock and its segments. The other nodes stay, so that a stream that is made under this
/// name later goes on with the next segment.
#[derive(Drop)]
pub struct Remove {
    alloc: Global,
    stream: Name,
    stage: RemoveStage,
}

impl Model for Remove {
    ghost use Rattle.dl_namespace.specs.Facts.{RemoveFacts};

    ghost Value = { RemoveFacts };

    ghost view = { λ t. record { stream = t.stream; stage = t.stage } };
}

impl Remove {
    /// A task that removes this stream, and its first turn: it asks for the removal. The line is the tag of its messages, of
    /// which it sends none.
    #[tactic(auto, unfolding(dl_rules_stream::specs::Orders::stage_after))]
    pub fn start(alloc: Global, _line: u32, stream: &Name) -> Result<(Remove, Turn<()>), NoMemory>
        ensures turn { IfOk result (λ x. x.1 ≡ turn_of (rule.remove_first stream.now).1) }
        ensures stands { IfOk result (λ x. RemovesFor (new_view stream.now) x.0) }
    {
        let request = remove_stream(alloc, stream)?;
        let stream = stream.share()?;
        let task = Remove {
            alloc,
            stream,
            stage: RemoveStage::Removing,
        };
        Ok((task, Turn::Ask(request)))
    }

    /// Hears the reply to its request, and answers with its next turn. A stream that isn't there is `NoStream`; one that has
    /// segments, or members of its lock, is `NotEmpty` with how many. Where the request fails otherwise, the node has moved on
    /// or the task gives up at its path. Messages of bookies change nothing. Want of memory leaves the task as it is.
    #[tactic(auto, unfolding(dl_rules_stream::specs::Orders::stage_after))]
    pub fn hear(&mut self, heard: &Heard) -> Result<Turn<()>, NoMemory>
        ensures goes { IfOk result (λ turn. (stream : List ℕ) (stage : rule.RemoveStage)
            → RemovesAt stream stage self.old
            → GoesBy (RemovesAt stream) (rule.remove_hears stream stage heard.now) turn self.new) }
        ensures view { IfOk result (λ turn. (v : View (List ℕ)) → RemovesFor v self.old
            → Hears remove_order RemovesFor v heard.now turn self.new) }
        ensures kept { OnErr result (self.new ≡ self.old) }
    {
        let Heard::Reply(answer) = heard else {
            return Ok(Turn::Wait);
        };
        let step = after_answer(self.alloc, &self.stream, &self.stage, answer)?;
        Ok(take(&mut self.stage, step))
    }
}
