ghost use Rattle.std.specs.Prelude.{◌≡◌, IfOk, OnErr};
ghost use Rattle.dl_msg.specs.declared.heard.Heard.{Heard};
ghost use Rattle.dl_rules_stream.specs.Truncates as rule;
ghost use Rattle.dl_requests.specs.Turns.{turn_of};
ghost use Rattle.dl_requests.specs.Tasks.{View, new_view, GoesBy, Hears};
ghost use Rattle.dl_trunc.specs.Truncating.{given_of, truncate_order, TruncatesAt, TruncatesFor};

use crate::truncate_answers::after_answer;
use crate::truncate_stage::TruncateStage;
use dl_msg::heard::Heard;
use dl_msg::turn::Turn;
use dl_requests::cuts::look_cut;
use dl_requests::moves::take;
use dl_types::dlsn::Dlsn;
use dl_types::memory::NoMemory;
use dl_types::name::Name;
use std::alloc::Global;
use std::marker::Model;

/// A task that moves the point of a stream up to a place, at most to the stream's end.
#[derive(Drop)]
pub struct Truncate {
    alloc: Global,
    stream: Name,
    place: Dlsn,
    stage: TruncateStage,
}

impl Model for Truncate {
    ghost use Rattle.dl_trunc.specs.Facts.{TruncateFacts};

    ghost Value = { TruncateFacts };

    ghost view = { λ t. record {
      given = record { stream = t.stream; place = t.place };
      stage = t.stage;
    } };
}

impl Truncate {
    /// A task that moves the point of this stream up to this place, and its first turn: it asks for the stream's segments and
    /// its point. The line is the tag of its messages, of which it sends none.
    #[tactic(auto, unfolding(dl_rules_stream::specs::Orders::stage_after))]
    pub fn start(
        alloc: Global,
        _line: u32,
        stream: &Name,
        place: Dlsn,
    ) -> Result<(Truncate, Turn<Dlsn>), NoMemory>
        ensures turn { IfOk result (λ x.
            x.1 ≡ turn_of (rule.truncate_first (given_of stream.now place)).1) }
        ensures stands { IfOk result (λ x.
            TruncatesFor (new_view (given_of stream.now place)) x.0) }
    {
        let request = look_cut(alloc, stream)?;
        let stream = stream.share()?;
        let task = Truncate {
            alloc,
            stream,
            place,
            stage: TruncateStage::Looking,
        };
        Ok((task, Turn::Ask(request)))
    }

    /// Hears the reply to its request, and answers with its next turn. It is done with the new point. A stream that isn't there
    /// is `NoStream`; a place at or below the stream's point is `Truncated` with the point, and one above the stream's end is
    /// `BeyondEnd` with the end. Where bytes are not in the form of their node, or a request fails otherwise, the task gives up
    /// at their path, or the node has moved on. Replies that aren't to its request, and messages of bookies, change nothing.
    /// Want of memory leaves the task as it is.
    #[tactic(auto, unfolding(dl_rules_stream::specs::Orders::stage_after))]
    pub fn hear(&mut self, heard: &Heard) -> Result<Turn<Dlsn>, NoMemory>
        ensures goes { IfOk result (λ turn. (x : rule.TruncateArgs) (stage : rule.TruncateStage)
            → TruncatesAt x stage self.old
            → GoesBy (TruncatesAt x) (rule.truncate_hears x stage heard.now) turn self.new) }
        ensures view { IfOk result (λ turn. (v : View rule.TruncateArgs) → TruncatesFor v self.old
            → Hears truncate_order TruncatesFor v heard.now turn self.new) }
        ensures kept { OnErr result (self.new ≡ self.old) }
    {
        let Heard::Reply(answer) = heard else {
            return Ok(Turn::Wait);
        };
        let step = after_answer(self.alloc, &self.stream, self.place, &self.stage, answer)?;
        Ok(take(&mut self.stage, step))
    }
}
