//! What the beginning of a reader does at an answer.

ghost use Rattle.std.specs.Prelude.{◌≡◌, IfOk};
ghost use Rattle.dl_types.specs.declared.meta_answer.MetaAnswer.TheVariants as answer;
ghost use Rattle.dl_rules_stream.specs.Listings.{point_of};
ghost use Rattle.dl_rules_stream.specs.Orders.{Done, or_refused};
ghost use Rattle.dl_rules_stream.specs.Seeks as rule;
ghost use Rattle.dl_rules_stream.specs.Seeks.{seek_answers};
ghost use Rattle.dl_seek.specs.declared.seek_stage.SeekStage.TheVariants as kept;
ghost use Rattle.dl_seek.specs.Seeking.{IsMove, args_of, seek_stage_of};

use crate::seek_given::SeekGiven;
use crate::seek_stage::SeekStage;
use dl_reader::reader::LogReader;
use dl_requests::moves::{Move, done, gives_up, refused};
use dl_requests::nodes::point_of;
use dl_requests::refusals::is_missing;
use dl_types::memory::NoMemory;
use dl_types::meta_answer::MetaAnswer;
use dl_types::one_answer::OneAnswer;
use dl_types::refusal::Refusal;
use dl_types::why::Why;
use std::alloc::Global;

/// Where the order goes from a stage.
type SeekMove = Move<SeekStage, LogReader>;

/// The bytes of the node `cut` were read: a reader begins at the stream's point.
fn after_point(alloc: Global, given: &SeekGiven, cut: &[u8]) -> Result<SeekMove, NoMemory>
    ensures { IfOk result (IsMove (args_of given.now) kept.Seeking (or_refused rule.SeekDone
        (λ point. (rule.SeekDone, Done point)) (point_of given.now.stream cut.now))) }
{
    match point_of(alloc, &given.stream, cut)? {
        Ok(point) => Ok(done(SeekStage::Over, given.reader(alloc, point)?)),
        Err(refusal) => Ok(refused(SeekStage::Over, refusal)),
    }
}

/// The answers to the operations of the request.
#[tactic(auto, unfolding(dl_rules_stream::specs::Seeks::seek_answers))]
fn after_many(alloc: Global, given: &SeekGiven, answers: &[OneAnswer]) -> Result<SeekMove, NoMemory>
    ensures { IfOk result (IsMove (args_of given.now) kept.Seeking
        (seek_answers given.now.stream rule.Seeking (answer.Many answers.now))) }
{
    match answers {
        [OneAnswer::Names(_), OneAnswer::Bytes { bytes, .. }] => {
            after_point(alloc, given, bytes.as_slice())
        }
        _ => Ok(Move::Stays),
    }
}

/// The request failed: the stream isn't there, or there is no way on.
#[tactic(auto, using(crate::proofs::Failures::seek_missing, crate::proofs::Failures::seek_failed))]
fn after_failed(
    alloc: Global,
    given: &SeekGiven,
    place: u16,
    why: Why,
) -> Result<SeekMove, NoMemory>
    ensures { IfOk result (IsMove (args_of given.now) kept.Seeking
        (seek_answers given.now.stream rule.Seeking (answer.Failed place why))) }
{
    if is_missing(place, why) {
        Ok(refused(SeekStage::Over, Refusal::NoStream))
    } else {
        gives_up(alloc, SeekStage::Over, given.list(alloc)?, place, why)
    }
}

/// What the order does at the answer to its request.
#[tactic(auto, unfolding(dl_rules_stream::specs::Seeks::seek_answers))]
pub(crate) fn after_answer(
    alloc: Global,
    given: &SeekGiven,
    stage: &SeekStage,
    answer: &MetaAnswer,
) -> Result<SeekMove, NoMemory>
    ensures { IfOk result (IsMove (args_of given.now) stage.now
        (seek_answers given.now.stream (seek_stage_of stage.now) answer.now)) }
{
    match (stage, answer) {
        (SeekStage::Seeking, MetaAnswer::Many(answers)) => {
            after_many(alloc, given, answers.as_slice())
        }
        (SeekStage::Seeking, MetaAnswer::Failed { place, why }) => {
            after_failed(alloc, given, *place, *why)
        }
        _ => Ok(Move::Stays),
    }
}
