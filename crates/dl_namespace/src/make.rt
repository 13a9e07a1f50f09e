ghost use Rattle.std.specs.Prelude.{◌≡◌, ℕ, List, IfOk, OnErr};
ghost use Rattle.dl_msg.specs.declared.heard.Heard.{Heard};
ghost use Rattle.dl_rules_stream.specs.Makes as rule;
ghost use Rattle.dl_requests.specs.Turns.{turn_of};
ghost use Rattle.dl_requests.specs.Tasks.{View, new_view, GoesBy, Hears};
ghost use Rattle.dl_namespace.specs.Making.{make_order, MakesAt, MakesFor};

use crate::make_answers::after_answer;
use crate::make_stage::MakeStage;
use dl_msg::heard::Heard;
use dl_msg::turn::Turn;
use dl_requests::moves::take;
use dl_requests::streams::make_stream;
use dl_types::memory::NoMemory;
use dl_types::name::Name;
use std::alloc::Global;
use std::marker::Model;

/// A task that makes a stream: all its nodes at once, or where the stream was removed before, its lock and its segments.
#[derive(Drop)]
pub struct Make {
    alloc: Global,
    stream: Name,
    stage: MakeStage,
}

impl Model for Make {
    ghost use Rattle.dl_namespace.specs.Facts.{MakeFacts};

    ghost Value = { MakeFacts };

    ghost view = { λ t. record { stream = t.stream; stage = t.stage } };
}

impl Make {
    /// A task that makes this stream, and its first turn: it asks for all nodes of the stream. The line is the tag of its
    /// messages, of which it sends none.
    #[tactic(auto, unfolding(dl_rules_stream::specs::Orders::stage_after))]
    pub fn start(alloc: Global, _line: u32, stream: &Name) -> Result<(Make, Turn<()>), NoMemory>
        ensures turn { IfOk result (λ x. x.1 ≡ turn_of (rule.make_first stream.now).1) }
        ensures stands { IfOk result (λ x. MakesFor (new_view stream.now) x.0) }
    {
        let request = make_stream(alloc, stream)?;
        let stream = stream.share()?;
        let task = Make {
            alloc,
            stream,
            stage: MakeStage::Making,
        };
        Ok((task, Turn::Ask(request)))
    }

    /// Hears the reply to its request, and answers with its next turn. Where a node of the stream is there, it asks for the lock
    /// and the segments alone, as of a stream that was removed before; where these are there too, it is refused as
    /// `StreamExists`. Where a request fails otherwise, the node has moved on or the task gives up at its path. Messages of
    /// bookies change nothing. Want of memory leaves the task as it is.
    #[tactic(auto, unfolding(dl_rules_stream::specs::Orders::stage_after))]
    pub fn hear(&mut self, heard: &Heard) -> Result<Turn<()>, NoMemory>
        ensures goes { IfOk result (λ turn. (stream : List ℕ) (stage : rule.MakeStage)
            → MakesAt stream stage self.old
            → GoesBy (MakesAt stream) (rule.make_hears stream stage heard.now) turn self.new) }
        ensures view { IfOk result (λ turn. (v : View (List ℕ)) → MakesFor v self.old
            → Hears make_order MakesFor v heard.now turn self.new) }
        ensures kept { OnErr result (self.new ≡ self.old) }
    {
        let Heard::Reply(answer) = heard else {
            return Ok(Turn::Wait);
        };
        let step = after_answer(self.alloc, &self.stream, &self.stage, answer)?;
        Ok(take(&mut self.stage, step))
    }
}
