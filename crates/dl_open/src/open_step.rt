ghost use Rattle.std.specs.Prelude.{◌≡◌};
ghost use Rattle.dl_open.specs.Opening.{stage_behind, turn_in, with_allocation, with_lock, with_recovery};

use crate::new_writer::NewWriter;
use crate::open_stage::OpenStage;
use dl_alloc::stage::Stage as AllocationStage;
use dl_lock::stage::Stage as LockStage;
use dl_msg::turn::Turn;
use dl_segrecover::stage::Stage as SegmentStage;

/// What the order does at what it hears.
#[derive(Drop)]
pub(crate) enum OpenStep {
    /// It waits where it is.
    Stays,
    /// The lock goes to this stage, and the order answers with this turn.
    Locks(LockStage, Turn<NewWriter>),
    /// The recovery of the segment goes to this stage, and the order answers with this turn.
    Recovers(SegmentStage, Turn<NewWriter>),
    /// The allocation goes to this stage, and the order answers with this turn.
    Allocates(AllocationStage, Turn<NewWriter>),
    /// The order goes to this stage, and answers with this turn.
    Goes(OpenStage, Turn<NewWriter>),
}

impl OpenStage {
    /// The lock goes to another stage, where the order waits for it.
    #[tactic(auto, using(crate::proofs::Elsewhere::no_lock))]
    fn lock(&mut self, stage: LockStage)
        ensures { self.new ≡ with_lock self.old stage }
    {
        if let OpenStage::Locking { lock } = self {
            lock.go(stage);
        }
    }

    /// The recovery of the segment goes to another stage, where the order waits for it.
    #[tactic(auto, using(crate::proofs::Elsewhere::no_recovery))]
    fn recover(&mut self, stage: SegmentStage)
        ensures { self.new ≡ with_recovery self.old stage }
    {
        if let OpenStage::Recovering { recovery, .. } = self {
            recovery.go(stage);
        }
    }

    /// The allocation goes to another stage, where the order waits for it.
    #[tactic(auto, using(crate::proofs::Elsewhere::no_allocation))]
    fn allocate(&mut self, stage: AllocationStage)
        ensures { self.new ≡ with_allocation self.old stage }
    {
        if let OpenStage::Allocating { allocation, .. } = self {
            allocation.go(stage);
        }
    }

    /// Takes a step, and answers with its turn.
    pub(crate) fn take(&mut self, step: OpenStep) -> Turn<NewWriter>
        ensures stage { self.new ≡ stage_behind self.old step }
        ensures turn { result ≡ turn_in step }
    {
        match step {
            OpenStep::Stays => Turn::Wait,
            OpenStep::Locks(stage, turn) => {
                self.lock(stage);
                turn
            }
            OpenStep::Recovers(stage, turn) => {
                self.recover(stage);
                turn
            }
            OpenStep::Allocates(stage, turn) => {
                self.allocate(stage);
                turn
            }
            OpenStep::Goes(stage, turn) => {
                *self = stage;
                turn
            }
        }
    }
}
