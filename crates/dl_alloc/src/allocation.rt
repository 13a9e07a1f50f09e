ghost use Rattle.std.specs.Prelude.{◌≡◌, IfOk, OnErr};
ghost use Rattle.dl_formats.specs.NodeBytes.{IsConf};
ghost use Rattle.dl_msg.specs.declared.heard.Heard.{Heard};
ghost use Rattle.dl_rules_stream.specs.Allocations.{AllocationArgs, AllocationStage};
ghost use Rattle.dl_rules_stream.specs.Allocations.{allocation_first, allocation_hears};
ghost use Rattle.dl_requests.specs.Turns.{answer_of, move_of, turn_of};
ghost use Rattle.dl_requests.specs.Tasks.{View, new_view, GoesBy, Hears};
ghost use Rattle.dl_alloc.specs.Standing.{given_of, allocation_order, allocation_stage_of, with_stage};
ghost use Rattle.dl_alloc.specs.Standing.{StandsAt, StandsFor};

use crate::answers::after_answer;
use crate::given::Given;
use crate::stage::Stage;
use dl_formats::conf::Conf;
use dl_msg::heard::Heard;
use dl_msg::turn::Turn;
use dl_requests::moves::{Move, take};
use dl_types::memory::NoMemory;
use dl_types::name::Name;
use dl_types::path::Path;
use std::alloc::Global;
use std::marker::Model;

/// A task that allocates a ledger for the next segment of a stream.
#[derive(Drop)]
pub struct Allocation {
    alloc: Global,
    given: Given,
    stage: Stage,
}

impl Model for Allocation {
    ghost use Rattle.dl_alloc.specs.Facts.{AllocationFacts};

    ghost Value = { AllocationFacts };

    ghost view = { λ t. record { given = t.given; stage = t.stage } };
}

impl Allocation {
    /// A task that allocates a ledger for this stream, and its first turn: it asks for a ledger of the configured quorum. The
    /// member is that of the stream's owner; the old ledger and the version are what was read of the stream's node `alloc`. The
    /// line is the tag of its messages, of which it sends none.
    #[tactic(auto, unfolding(dl_rules_stream::specs::Orders::stage_after))]
    pub fn start(
        alloc: Global,
        _line: u32,
        stream: &Name,
        member: &Path,
        old: Option<u64>,
        version: u64,
        conf: Conf,
    ) -> Result<(Allocation, Turn<u64>), NoMemory>
        requires { IsConf conf }
        ensures turn { let given = given_of stream.now member.now old version conf in
            IfOk result (λ x. x.1 ≡ turn_of (allocation_first given).1) }
        ensures stands { let given = given_of stream.now member.now old version conf in
            IfOk result (λ x. StandsFor (new_view given) x.0) }
    {
        let given = Given {
            stream: stream.share()?,
            member: member.share()?,
            old,
            version,
            conf,
        };
        let request = given.make(alloc)?;
        let task = Allocation {
            alloc,
            given,
            stage: Stage::Making,
        };
        Ok((task, Turn::Ask(request)))
    }

    /// Where it goes at what it hears, as `hear` does; nothing changes.
    pub fn step(&self, heard: &Heard) -> Result<Move<Stage, u64>, NoMemory>
        ensures { IfOk result (λ step. (x : AllocationArgs) (stage : AllocationStage)
            → StandsAt x stage self.now → move_of allocation_stage_of stage step
            ≡ answer_of (allocation_hears x stage heard.now)) }
    {
        match heard {
            Heard::Reply(answer) => after_answer(self.alloc, &self.given, &self.stage, answer),
            Heard::From(..) => Ok(Move::Stays),
        }
    }

    /// Goes to this stage, which `step` told.
    pub fn go(&mut self, stage: Stage)
        ensures { self.new ≡ with_stage self.old stage }
    {
        self.stage = stage;
    }

    /// Hears the reply to its request, and answers with its next turn. It is done with the number of the new ledger, once the
    /// stream's node `alloc` names it and the one that it named before is deleted. Where a request fails, the node has moved on
    /// or the task gives up at its path. Replies that aren't to its request, and messages of bookies, change nothing. Want of
    /// memory leaves the task as it is.
    #[tactic(auto, unfolding(dl_rules_stream::specs::Orders::stage_after))]
    pub fn hear(&mut self, heard: &Heard) -> Result<Turn<u64>, NoMemory>
        ensures goes { IfOk result (λ turn. (x : AllocationArgs) (stage : AllocationStage)
            → StandsAt x stage self.old
            → GoesBy (StandsAt x) (allocation_hears x stage heard.now) turn self.new) }
        ensures view { IfOk result (λ turn. (v : View AllocationArgs) → StandsFor v self.old
            → Hears allocation_order StandsFor v heard.now turn self.new) }
        ensures kept { OnErr result (self.new ≡ self.old) }
    {
        let step = self.step(heard)?;
        Ok(take(&mut self.stage, step))
    }
}
