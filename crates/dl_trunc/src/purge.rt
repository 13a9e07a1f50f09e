ghost use Rattle.std.specs.Prelude.{◌≡◌, ◌+◌, ◌<◌, ◌^◌, ℕ, List, length, IfOk, OnErr};
ghost use Rattle.dl_msg.specs.declared.heard.Heard.{Heard};
ghost use Rattle.dl_rules_stream.specs.Purges as rule;
ghost use Rattle.dl_requests.specs.Turns.{turn_of};
ghost use Rattle.dl_requests.specs.Tasks.{View, new_view, GoesBy, Hears};
ghost use Rattle.dl_trunc.specs.Purging.{purge_order, PurgesAt, PurgesFor};

use crate::purge_answers::{Step, after_answer};
use crate::purge_stage::PurgeStage;
use dl_formats::segment_name::SegmentName;
use dl_msg::heard::Heard;
use dl_msg::turn::Turn;
use dl_requests::cuts::list_cut;
use dl_requests::segments::get_segment;
use dl_types::memory::NoMemory;
use dl_types::name::Name;
use std::alloc::Global;
use std::collections::VecDeque;
use std::marker::Model;

/// A task that deletes each completed segment below that of a stream's point, with its ledger, the first one first.
#[derive(Drop)]
pub struct Purge {
    alloc: Global,
    stream: Name,
    left: VecDeque<SegmentName>,
    count: u64,
    stage: PurgeStage,
}

impl Model for Purge {
    ghost use Rattle.std.specs.Prelude.{◌+◌, ◌<◌, ◌^◌, length};
    ghost use Rattle.dl_trunc.specs.Facts.{PurgeFacts};

    ghost Value = { PurgeFacts };

    ghost view = { λ t. record {
      stream = t.stream;
      left = t.left.items;
      count = t.count;
      stage = t.stage;
    } };

    ghost invariant = { λ t. t.count + length t.left.items + 1 < 2 ^ 64 };
}

impl Purge {
    /// A task that deletes the segments below this stream's point, and its first turn: it asks for the stream's segments and
    /// its point. The line is the tag of its messages, of which it sends none.
    #[tactic(auto, unfolding(dl_rules_stream::specs::Orders::stage_after))]
    pub fn start(alloc: Global, _line: u32, stream: &Name) -> Result<(Purge, Turn<u64>), NoMemory>
        ensures turn { IfOk result (λ x. x.1 ≡ turn_of (rule.purge_first stream.now).1) }
        ensures stands { IfOk result (λ x. PurgesFor (new_view stream.now) x.0) }
    {
        let request = list_cut(alloc, stream)?;
        let stream = stream.share()?;
        let task = Purge {
            alloc,
            stream,
            left: VecDeque::new(alloc),
            count: 0,
            stage: PurgeStage::Listing,
        };
        Ok((task, Turn::Ask(request)))
    }

    /// Goes on with the first of these segments, where there is one.
    fn begin(&mut self, mut left: VecDeque<SegmentName>) -> Result<Turn<u64>, NoMemory>
        ensures goes { IfOk result (λ turn. GoesBy (PurgesAt self.old.stream)
            (rule.goes_on self.old.stream left.items 0) turn self.new) }
        ensures kept { OnErr result (self.new ≡ self.old) }
    {
        match left.pop_front() {
            None => {
                self.stage = PurgeStage::Over;
                Ok(Turn::Done(0))
            }
            Some(segment) => {
                let request = get_segment(self.alloc, &self.stream, segment)?;
                self.left = left;
                self.count = 0;
                self.stage = PurgeStage::Getting { segment };
                Ok(Turn::Ask(request))
            }
        }
    }

    /// Goes on with the next segment, where one is left, after so many deletions.
    fn go_on(&mut self, count: u64) -> Result<Turn<u64>, NoMemory>
        requires { count + length self.old.left < 2 ^ 64 }
        ensures goes { IfOk result (λ turn. GoesBy (PurgesAt self.old.stream)
            (rule.goes_on self.old.stream self.old.left count) turn self.new) }
        ensures kept { OnErr result (self.new ≡ self.old) }
    {
        match self.left.front() {
            None => {
                self.stage = PurgeStage::Over;
                Ok(Turn::Done(count))
            }
            Some(segment) => {
                let segment = *segment;
                let request = get_segment(self.alloc, &self.stream, segment)?;
                self.left.pop_front();
                self.count = count;
                self.stage = PurgeStage::Getting { segment };
                Ok(Turn::Ask(request))
            }
        }
    }

    /// Hears the reply to its request, and answers with its next turn. It is done with the count of the segments that it has
    /// deleted itself: one that is there no more, when it is read or deleted, is passed over. Where bytes are not in the form of
    /// their node, or a request fails otherwise, the task gives up at their path, or the node has moved on. Replies that aren't
    /// to its request, and messages of bookies, change nothing. Want of memory leaves the task as it is.
    #[tactic(auto, unfolding(dl_rules_stream::specs::Orders::stage_after))]
    pub fn hear(&mut self, heard: &Heard) -> Result<Turn<u64>, NoMemory>
        ensures goes { IfOk result (λ turn. (stream : List ℕ) (stage : rule.PurgeStage)
            → PurgesAt stream stage self.old
            → GoesBy (PurgesAt stream) (rule.purge_hears stream stage heard.now) turn self.new) }
        ensures view { IfOk result (λ turn. (v : View (List ℕ)) → PurgesFor v self.old
            → Hears purge_order PurgesFor v heard.now turn self.new) }
        ensures kept { OnErr result (self.new ≡ self.old) }
    {
        let Heard::Reply(answer) = heard else {
            return Ok(Turn::Wait);
        };
        match after_answer(self.alloc, &self.stream, &self.stage, answer)? {
            Step::Stays => Ok(Turn::Wait),
            Step::Goes(stage, turn) => {
                self.stage = stage;
                Ok(turn)
            }
            Step::Lists(left) => self.begin(left),
            Step::Passes => self.go_on(self.count),
            Step::Counts => self.go_on(self.count + 1),
        }
    }
}
