ghost use Rattle.std.specs.Prelude.{◌≡◌, ℕ, List, IfOk, OnErr};
ghost use Rattle.dl_msg.specs.declared.heard.Heard.{Heard};
ghost use Rattle.dl_rules_stream.specs.Locks.{LockStage, lock_first, lock_hears};
ghost use Rattle.dl_requests.specs.Tasks.{View, new_view, GoesBy, Hears};
ghost use Rattle.dl_requests.specs.Turns.{answer_of, move_of, turn_of};
ghost use Rattle.dl_lock.specs.Standing.{lock_order, lock_stage_of, with_stage, StandsAt, StandsFor};

use crate::answers::after_answer;
use crate::stage::Stage;
use dl_msg::heard::Heard;
use dl_msg::turn::Turn;
use dl_requests::members::make_member;
use dl_requests::moves::{Move, take};
use dl_types::memory::NoMemory;
use dl_types::name::Name;
use dl_types::path::Path;
use std::alloc::Global;
use std::marker::Model;

/// A task that takes the lock of a stream for a client: it asks the metadata node for one request after the other.
#[derive(Drop)]
pub struct Lock {
    alloc: Global,
    stream: Name,
    stage: Stage,
}

impl Model for Lock {
    ghost use Rattle.dl_lock.specs.Facts.{LockFacts};

    ghost Value = { LockFacts };

    ghost view = { λ t. record { stream = t.stream; stage = t.stage } };
}

impl Lock {
    /// A task that takes the lock of this stream, and its first turn: it asks for a member of its own. The line is the tag of
    /// its messages, of which it sends none.
    #[tactic(auto, unfolding(dl_rules_stream::specs::Orders::stage_after))]
    pub fn start(alloc: Global, _line: u32, stream: &Name) -> Result<(Lock, Turn<Path>), NoMemory>
        ensures turn { IfOk result (λ x. x.1 ≡ turn_of (lock_first stream.now).1) }
        ensures stands { IfOk result (λ x. StandsFor (new_view stream.now) x.0) }
    {
        let request = make_member(alloc, stream)?;
        let stream = stream.share()?;
        let task = Lock {
            alloc,
            stream,
            stage: Stage::Making,
        };
        Ok((task, Turn::Ask(request)))
    }

    /// Where it goes at what it hears, as `hear` does; nothing changes.
    pub fn step(&self, heard: &Heard) -> Result<Move<Stage, Path>, NoMemory>
        ensures { IfOk result (λ step. (stream : List ℕ) (stage : LockStage)
            → StandsAt stream stage self.now
            → move_of lock_stage_of stage step ≡ answer_of (lock_hears stream stage heard.now)) }
    {
        match heard {
            Heard::Reply(answer) => after_answer(self.alloc, &self.stream, &self.stage, answer),
            Heard::From(..) => Ok(Move::Stays),
        }
    }

    /// Goes to this stage, which `step` told.
    pub fn go(&mut self, stage: Stage)
        ensures { self.new ≡ with_stage self.old stage }
    {
        self.stage = stage;
    }

    /// Hears the reply to its request, and answers with its next turn. It is done with the path of its member where no other
    /// one has a lesser number; else it deletes its member, and is refused: `Held` names the least one. A stream that isn't
    /// there is `NoStream`; where a request fails otherwise, the node has moved on or the task gives up at its path. Messages of
    /// bookies, and replies that aren't to its request, change nothing. Want of memory leaves the task as it is.
    #[tactic(auto, unfolding(dl_rules_stream::specs::Orders::stage_after))]
    pub fn hear(&mut self, heard: &Heard) -> Result<Turn<Path>, NoMemory>
        ensures goes { IfOk result (λ turn. (stream : List ℕ) (stage : LockStage)
            → StandsAt stream stage self.old
            → GoesBy (StandsAt stream) (lock_hears stream stage heard.now) turn self.new) }
        ensures view { IfOk result (λ turn. (v : View (List ℕ)) → StandsFor v self.old
            → Hears lock_order StandsFor v heard.now turn self.new) }
        ensures kept { OnErr result (self.new ≡ self.old) }
    {
        let step = self.step(heard)?;
        Ok(take(&mut self.stage, step))
    }
}
