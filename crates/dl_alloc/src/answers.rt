//! What the task does at an answer, stage by stage.

ghost use Rattle.std.specs.Prelude.{◌≡◌, IfOk};
ghost use Rattle.dl_rules_stream.specs.Allocations.{MakingLedger, TakingLedger, allocation_answers};
ghost use Rattle.dl_requests.specs.Turns.{answer_of, move_of};
ghost use Rattle.dl_alloc.specs.Standing.{allocation_stage_of};

use crate::given::Given;
use crate::stage::Stage;
use dl_requests::moves::{Move, asks, done, gives_up};
use dl_requests::numbers::number_behind;
use dl_types::memory::NoMemory;
use dl_types::meta_answer::MetaAnswer;
use dl_types::one_answer::OneAnswer;
use std::alloc::Global;

/// Where the task goes from a stage.
type AllocationMove = Move<Stage, u64>;

/// The answer to the making of a ledger.
#[tactic(auto, unfolding(dl_rules_stream::specs::Allocations::allocation_answers))]
fn after_making(
    alloc: Global,
    given: &Given,
    answer: &MetaAnswer,
) -> Result<AllocationMove, NoMemory>
    ensures { IfOk result (λ move. move_of allocation_stage_of MakingLedger move
        ≡ answer_of (allocation_answers given.now MakingLedger answer.now)) }
{
    match answer {
        MetaAnswer::One(OneAnswer::Made(path)) => {
            let ledger = number_behind(path.as_slice());
            Ok(asks(Stage::Taking { ledger }, given.take(alloc, ledger)?))
        }
        MetaAnswer::Failed { place, why } => {
            gives_up(alloc, Stage::Over, given.make(alloc)?, *place, *why)
        }
        _ => Ok(Move::Stays),
    }
}

/// The answer to the naming of the new ledger.
#[tactic(auto, unfolding(dl_rules_stream::specs::Allocations::allocation_answers))]
fn after_taking(
    alloc: Global,
    given: &Given,
    ledger: u64,
    answer: &MetaAnswer,
) -> Result<AllocationMove, NoMemory>
    ensures { IfOk result (λ move. move_of allocation_stage_of (TakingLedger ledger) move
        ≡ answer_of (allocation_answers given.now (TakingLedger ledger) answer.now)) }
{
    match answer {
        MetaAnswer::Failed { place, why } => {
            gives_up(alloc, Stage::Over, given.take(alloc, ledger)?, *place, *why)
        }
        _ => Ok(done(Stage::Over, ledger)),
    }
}

/// What the task does at the answer to the request that its stage waits for.
#[tactic(auto, unfolding(dl_rules_stream::specs::Allocations::allocation_answers))]
pub(crate) fn after_answer(
    alloc: Global,
    given: &Given,
    stage: &Stage,
    answer: &MetaAnswer,
) -> Result<AllocationMove, NoMemory>
    ensures { IfOk result (λ move. move_of allocation_stage_of (allocation_stage_of stage.now) move
        ≡ answer_of (allocation_answers given.now (allocation_stage_of stage.now) answer.now)) }
{
    match stage {
        Stage::Making => after_making(alloc, given, answer),
        Stage::Taking { ledger } => after_taking(alloc, given, *ledger, answer),
        Stage::Over => Ok(Move::Stays),
    }
}
