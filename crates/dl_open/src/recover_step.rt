ghost use Rattle.std.specs.Prelude.{◌≡◌};
ghost use Rattle.dl_open.specs.Recovering.{stage_behind, turn_in, with_recovery};

use crate::found::Found;
use crate::recover_stage::RecoverStage;
use dl_msg::turn::Turn;
use dl_segrecover::stage::Stage;

/// What the order does at what it hears.
#[derive(Drop)]
pub(crate) enum RecoverStep {
    /// It waits where it is.
    Stays,
    /// The recovery of the segment goes to this stage, and the order answers with this turn.
    Recovers(Stage, Turn<Found>),
    /// The order goes to this stage, and answers with this turn.
    Goes(RecoverStage, Turn<Found>),
}

impl RecoverStage {
    /// The recovery of the segment goes to another stage, where the order waits for it.
    #[tactic(auto, using(crate::proofs::Elsewhere::no_segment))]
    fn recover(&mut self, stage: Stage)
        ensures { self.new ≡ with_recovery self.old stage }
    {
        if let RecoverStage::Recovering { recovery, .. } = self {
            recovery.go(stage);
        }
    }

    /// Takes a step, and answers with its turn.
    pub(crate) fn take(&mut self, step: RecoverStep) -> Turn<Found>
        ensures stage { self.new ≡ stage_behind self.old step }
        ensures turn { result ≡ turn_in step }
    {
        match step {
            RecoverStep::Stays => Turn::Wait,
            RecoverStep::Recovers(stage, turn) => {
                self.recover(stage);
                turn
            }
            RecoverStep::Goes(stage, turn) => {
                *self = stage;
                turn
            }
        }
    }
}
