//! What the end of a writer does at an answer, stage by stage.

ghost use Rattle.std.specs.Prelude.{◌≡◌, ℕ, IfOk};
ghost use Rattle.dl_types.specs.declared.meta_answer.MetaAnswer.TheVariants as answer;
ghost use Rattle.dl_rules_stream.specs.Closes as rule;
ghost use Rattle.dl_rules_stream.specs.Closes.{close_answers};
ghost use Rattle.dl_requests.specs.Turns.{answer_of, move_of};
ghost use Rattle.dl_close.specs.Closing.{args_of, close_stage_of, is_completed};

use crate::close_given::CloseGiven;
use crate::close_stage::CloseStage;
use dl_requests::moves::{Move, asks, done, gives_up};
use dl_types::memory::NoMemory;
use dl_types::meta_answer::MetaAnswer;
use dl_types::why::Why;
use std::alloc::Global;

/// Where the order goes from a stage.
type CloseMove = Move<CloseStage, ()>;

/// The answer to the closing of the ledger.
#[tactic(auto, unfolding(dl_rules_stream::specs::Closes::close_answers))]
fn after_closing(
    alloc: Global,
    given: &CloseGiven,
    answer: &MetaAnswer,
) -> Result<CloseMove, NoMemory>
    ensures { IfOk result (λ move. move_of close_stage_of rule.ClosingLedger move
        ≡ answer_of (close_answers (args_of given.now) rule.ClosingLedger answer.now)) }
{
    match answer {
        MetaAnswer::Failed { place, why } => {
            gives_up(alloc, CloseStage::Over, given.close(alloc)?, *place, *why)
        }
        _ => Ok(asks(CloseStage::Completing, given.complete(alloc)?)),
    }
}

/// Whether a failure of the completion says that the segment in progress is there no more: another client has completed it.
#[tactic(auto, using(crate::proofs::Failures::not_completed, crate::proofs::Failures::completed_at))]
fn is_completed(place: u16, why: Why) -> bool
    ensures { result ≡ is_completed place why }
{
    match why {
        Why::NoNode => place == 1,
        _ => false,
    }
}

/// The completion failed: another client has completed the segment, or there is no way on.
#[tactic(auto, using(crate::proofs::Failures::close_completed, crate::proofs::Failures::close_failed))]
fn after_failed_completing(
    alloc: Global,
    given: &CloseGiven,
    place: u16,
    why: Why,
) -> Result<CloseMove, NoMemory>
    ensures { IfOk result (λ move. move_of close_stage_of rule.Completing move ≡ answer_of
        (close_answers (args_of given.now) rule.Completing (answer.Failed place why))) }
{
    if is_completed(place, why) {
        Ok(asks(CloseStage::Leaving, given.leave()?))
    } else {
        gives_up(alloc, CloseStage::Over, given.complete(alloc)?, place, why)
    }
}

/// The answer to the completion of the segment.
#[tactic(auto, unfolding(dl_rules_stream::specs::Closes::close_answers))]
fn after_completing(
    alloc: Global,
    given: &CloseGiven,
    answer: &MetaAnswer,
) -> Result<CloseMove, NoMemory>
    ensures { IfOk result (λ move. move_of close_stage_of rule.Completing move
        ≡ answer_of (close_answers (args_of given.now) rule.Completing answer.now)) }
{
    match answer {
        MetaAnswer::Failed { place, why } => after_failed_completing(alloc, given, *place, *why),
        _ => Ok(asks(CloseStage::Leaving, given.leave()?)),
    }
}

/// The answer to the deletion of the owner's member.
#[tactic(auto, unfolding(dl_rules_stream::specs::Closes::close_answers))]
fn after_leaving(
    alloc: Global,
    given: &CloseGiven,
    answer: &MetaAnswer,
) -> Result<CloseMove, NoMemory>
    ensures { IfOk result (λ move. move_of close_stage_of rule.LeavingLock move
        ≡ answer_of (close_answers (args_of given.now) rule.LeavingLock answer.now)) }
{
    match answer {
        MetaAnswer::Failed { place, why } => {
            gives_up(alloc, CloseStage::Over, given.leave()?, *place, *why)
        }
        _ => Ok(done(CloseStage::Over, ())),
    }
}

/// What the order does at the answer to the request that its stage waits for.
#[tactic(auto, unfolding(dl_rules_stream::specs::Closes::close_answers))]
pub(crate) fn after_answer(
    alloc: Global,
    given: &CloseGiven,
    stage: &CloseStage,
    answer: &MetaAnswer,
) -> Result<CloseMove, NoMemory>
    ensures { IfOk result (λ move. move_of close_stage_of (close_stage_of stage.now) move
        ≡ answer_of (close_answers (args_of given.now) (close_stage_of stage.now) answer.now)) }
{
    match stage {
        CloseStage::Closing => after_closing(alloc, given, answer),
        CloseStage::Completing => after_completing(alloc, given, answer),
        CloseStage::Leaving => after_leaving(alloc, given, answer),
        CloseStage::Over => Ok(Move::Stays),
    }
}
