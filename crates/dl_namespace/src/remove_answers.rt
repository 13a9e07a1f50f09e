//! What a task that removes a stream does at an answer, stage by stage.

ghost use Rattle.std.specs.Prelude.{◌≡◌, IfOk};
ghost use Rattle.dl_types.specs.declared.meta_answer.MetaAnswer.TheVariants as answer;
ghost use Rattle.dl_rules_stream.specs.Removes.{Removing, remove_answers};
ghost use Rattle.dl_requests.specs.Turns.{answer_of, move_of};
ghost use Rattle.dl_namespace.specs.Removing.{remove_stage_of};

use crate::remove_stage::RemoveStage;
use dl_requests::moves::{Move, done, gives_up, refused};
use dl_requests::streams::remove_stream;
use dl_types::memory::NoMemory;
use dl_types::meta_answer::MetaAnswer;
use dl_types::name::Name;
use dl_types::refusal::Refusal;
use dl_types::why::Why;
use std::alloc::Global;

/// Where the task goes from a stage.
type RemoveMove = Move<RemoveStage, ()>;

/// The removal failed: the stream isn't there, it has segments or members of its lock, or there is no way on.
#[tactic(auto, using(crate::proofs::Failures::failed_removing), unfolding(dl_rules_stream::specs::Removes::remove_answers))]
fn after_failed_removing(
    alloc: Global,
    stream: &Name,
    place: u16,
    why: Why,
) -> Result<RemoveMove, NoMemory>
    ensures { IfOk result (λ move. move_of remove_stage_of Removing move
        ≡ answer_of (remove_answers stream.now Removing (answer.Failed place why))) }
{
    match why {
        Why::NoNode => Ok(refused(RemoveStage::Over, Refusal::NoStream)),
        Why::NotEmpty(count) => Ok(refused(RemoveStage::Over, Refusal::NotEmpty { count })),
        _ => gives_up(
            alloc,
            RemoveStage::Over,
            remove_stream(alloc, stream)?,
            place,
            why,
        ),
    }
}

/// What the task does at the answer to its request.
#[tactic(auto, unfolding(dl_rules_stream::specs::Removes::remove_answers))]
pub(crate) fn after_answer(
    alloc: Global,
    stream: &Name,
    stage: &RemoveStage,
    answer: &MetaAnswer,
) -> Result<RemoveMove, NoMemory>
    ensures { IfOk result (λ move. move_of remove_stage_of (remove_stage_of stage.now) move
        ≡ answer_of (remove_answers stream.now (remove_stage_of stage.now) answer.now)) }
{
    match (stage, answer) {
        (RemoveStage::Removing, MetaAnswer::Failed { place, why }) => {
            after_failed_removing(alloc, stream, *place, *why)
        }
        (RemoveStage::Removing, _) => Ok(done(RemoveStage::Over, ())),
        (RemoveStage::Over, _) => Ok(Move::Stays),
    }
}
