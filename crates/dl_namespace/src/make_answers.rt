//! What a task that makes a stream does at an answer, stage by stage.

ghost use Rattle.std.specs.Prelude.{◌≡◌, IfOk};
ghost use Rattle.dl_types.specs.declared.meta_answer.MetaAnswer.TheVariants as answer;
ghost use Rattle.dl_rules_stream.specs.Makes.{Making, MakingAgain, make_answers};
ghost use Rattle.dl_requests.specs.Turns.{answer_of, move_of};
ghost use Rattle.dl_namespace.specs.Making.{make_stage_of};

use crate::make_stage::MakeStage;
use dl_requests::moves::{Move, asks, done, gives_up, refused};
use dl_requests::streams::{make_again, make_stream};
use dl_types::memory::NoMemory;
use dl_types::meta_answer::MetaAnswer;
use dl_types::name::Name;
use dl_types::refusal::Refusal;
use dl_types::why::Why;
use std::alloc::Global;

/// Where the task goes from a stage.
type MakeMove = Move<MakeStage, ()>;

/// The making of all nodes failed: there is a node of the stream from before, or there is no way on.
#[tactic(auto, using(crate::proofs::Failures::failed_making), unfolding(dl_rules_stream::specs::Makes::make_answers))]
fn after_failed_making(
    alloc: Global,
    stream: &Name,
    place: u16,
    why: Why,
) -> Result<MakeMove, NoMemory>
    ensures { IfOk result (λ move. move_of make_stage_of Making move
        ≡ answer_of (make_answers stream.now Making (answer.Failed place why))) }
{
    match (place, why) {
        (0, Why::NodeExists) => Ok(asks(MakeStage::MakingAgain, make_again(alloc, stream)?)),
        _ => gives_up(
            alloc,
            MakeStage::Over,
            make_stream(alloc, stream)?,
            place,
            why,
        ),
    }
}

/// The making of the lock and of the segments failed: the stream is there, or there is no way on.
#[tactic(auto, using(crate::proofs::Failures::failed_again), unfolding(dl_rules_stream::specs::Makes::make_answers))]
fn after_failed_again(
    alloc: Global,
    stream: &Name,
    place: u16,
    why: Why,
) -> Result<MakeMove, NoMemory>
    ensures { IfOk result (λ move. move_of make_stage_of MakingAgain move
        ≡ answer_of (make_answers stream.now MakingAgain (answer.Failed place why))) }
{
    match (place, why) {
        (0, Why::NodeExists) => Ok(refused(MakeStage::Over, Refusal::StreamExists)),
        _ => gives_up(
            alloc,
            MakeStage::Over,
            make_again(alloc, stream)?,
            place,
            why,
        ),
    }
}

/// What the task does at the answer to the request that its stage waits for.
#[tactic(auto, unfolding(dl_rules_stream::specs::Makes::make_answers))]
pub(crate) fn after_answer(
    alloc: Global,
    stream: &Name,
    stage: &MakeStage,
    answer: &MetaAnswer,
) -> Result<MakeMove, NoMemory>
    ensures { IfOk result (λ move. move_of make_stage_of (make_stage_of stage.now) move
        ≡ answer_of (make_answers stream.now (make_stage_of stage.now) answer.now)) }
{
    match (stage, answer) {
        (MakeStage::Making, MetaAnswer::Failed { place, why }) => {
            after_failed_making(alloc, stream, *place, *why)
        }
        (MakeStage::MakingAgain, MetaAnswer::Failed { place, why }) => {
            after_failed_again(alloc, stream, *place, *why)
        }
        (MakeStage::Over, _) => Ok(Move::Stays),
        _ => Ok(done(MakeStage::Over, ())),
    }
}
