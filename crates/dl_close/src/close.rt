ghost use Rattle.std.specs.Prelude.{◌≡◌, IfOk, OnErr};
ghost use Rattle.dl_quorum.specs.Sizes.{sizes_of};
ghost use Rattle.dl_rules_stream.specs.Closes as rule;
ghost use Rattle.dl_requests.specs.Turns.{turn_of};
ghost use Rattle.dl_requests.specs.Tasks.{View, new_view, GoesBy, Hears};
ghost use Rattle.dl_close.specs.Closing.{given_of, close_order, ClosesAt, ClosesFor};

use crate::close_answers::after_answer;
use crate::close_given::CloseGiven;
use crate::close_stage::CloseStage;
use dl_msg::heard::Heard;
use dl_msg::turn::Turn;
use dl_requests::moves::take;
use dl_requests::segment_end::SegmentEnd;
use dl_types::memory::NoMemory;
use dl_types::name::Name;
use dl_types::path::Path;
use dl_types::quorum::Quorum;
use std::alloc::Global;
use std::marker::Model;

/// An order that ends a writer whose entries are confirmed: it closes the ledger, completes the segment, and leaves the lock.
#[derive(Drop)]
pub struct Close {
    alloc: Global,
    given: CloseGiven,
    stage: CloseStage,
}

impl Model for Close {
    ghost use Rattle.dl_close.specs.Closing.{args_of, CloseFacts};

    ghost Value = { CloseFacts };

    ghost view = { λ t. record { given = args_of t.given; stage = t.stage } };
}

impl Close {
    /// An order that ends the writer of this stream, and its first turn: it asks that the ledger be closed. The member is that
    /// of the stream's owner; the end is that of the segment; the quorum and the version are those of the ledger's node.
    #[tactic(auto, unfolding(dl_rules_stream::specs::Orders::stage_after))]
    pub fn start(
        alloc: Global,
        stream: &Name,
        member: &Path,
        end: SegmentEnd,
        q: Quorum,
        version: u64,
    ) -> Result<(Close, Turn<()>), NoMemory>
        ensures turn { let given = given_of stream.now member.now end (sizes_of q) version in
            IfOk result (λ x. x.1 ≡ turn_of (rule.close_first given).1) }
        ensures stands { let given = given_of stream.now member.now end (sizes_of q) version in
            IfOk result (λ x. ClosesFor (new_view given) x.0) }
    {
        let given = CloseGiven {
            stream: stream.share()?,
            member: member.share()?,
            end,
            q,
            version,
        };
        let request = given.close(alloc)?;
        let task = Close {
            alloc,
            given,
            stage: CloseStage::Closing,
        };
        Ok((task, Turn::Ask(request)))
    }

    /// Hears the reply to its request, and answers with its next turn. It is done once the owner's member of the lock is
    /// deleted. A segment in progress that is there no more was completed by another client, and the order goes on. Where a
    /// request fails otherwise, the node has moved on or the order gives up at its path. Messages of bookies change nothing.
    /// Want of memory leaves the order as it is.
    #[tactic(auto, unfolding(dl_rules_stream::specs::Orders::stage_after))]
    pub fn hear(&mut self, heard: &Heard) -> Result<Turn<()>, NoMemory>
        ensures goes { IfOk result (λ turn. (x : rule.CloseArgs) (stage : rule.CloseStage)
            → ClosesAt x stage self.old
            → GoesBy (ClosesAt x) (rule.close_hears x stage heard.now) turn self.new) }
        ensures view { IfOk result (λ turn. (v : View rule.CloseArgs) → ClosesFor v self.old
            → Hears close_order ClosesFor v heard.now turn self.new) }
        ensures kept { OnErr result (self.new ≡ self.old) }
    {
        let Heard::Reply(answer) = heard else {
            return Ok(Turn::Wait);
        };
        let step = after_answer(self.alloc, &self.given, &self.stage, answer)?;
        Ok(take(&mut self.stage, step))
    }
}
