//! What the task does at an answer, stage by stage.

ghost use Rattle.std.specs.Prelude.{◌≡◌, ℕ, List, IfOk};
ghost use Rattle.dl_types.specs.declared.meta_answer.MetaAnswer.TheVariants as answer;
ghost use Rattle.dl_rules_stream.specs.Locks.{LockStage, MakingMember, ListingMembers, LeavingLock};
ghost use Rattle.dl_rules_stream.specs.Locks.{lock_or_leave, lock_answers};
ghost use Rattle.dl_requests.specs.Turns.{answer_of, move_of};
ghost use Rattle.dl_lock.specs.Standing.{lock_stage_of};

use crate::names::least_of;
use crate::stage::Stage;
use dl_requests::members::{leave_lock, list_members, make_member};
use dl_requests::moves::{Move, asks, done, gives_up, refused};
use dl_requests::numbers::number_behind;
use dl_types::memory::NoMemory;
use dl_types::meta_answer::MetaAnswer;
use dl_types::name::Name;
use dl_types::one_answer::OneAnswer;
use dl_types::path::Path;
use dl_types::refusal::Refusal;
use dl_types::why::Why;
use std::alloc::Global;

/// Where the task goes from a stage.
type LockMove = Move<Stage, Path>;

/// The making of its member failed: the stream isn't there, or there is no way on.
#[tactic(auto, using(crate::proofs::Failures::failed_making), unfolding(dl_rules_stream::specs::Locks::lock_answers))]
fn after_failed_making(
    alloc: Global,
    stream: &Name,
    place: u16,
    why: Why,
) -> Result<LockMove, NoMemory>
    ensures { IfOk result (λ move. move_of lock_stage_of MakingMember move
        ≡ answer_of (lock_answers stream.now MakingMember (answer.Failed place why))) }
{
    match why {
        Why::NoNode => Ok(refused(Stage::Over, Refusal::NoStream)),
        _ => {
            let request = make_member(alloc, stream)?;
            gives_up(alloc, Stage::Over, request, place, why)
        }
    }
}

/// The answer to the making of its member.
#[tactic(auto, unfolding(dl_rules_stream::specs::Locks::lock_answers))]
fn after_making(alloc: Global, stream: &Name, answer: &MetaAnswer) -> Result<LockMove, NoMemory>
    ensures { IfOk result (λ move. move_of lock_stage_of MakingMember move
        ≡ answer_of (lock_answers stream.now MakingMember answer.now)) }
{
    match answer {
        MetaAnswer::One(OneAnswer::Made(path)) => {
            let member = path.share()?;
            Ok(asks(Stage::Listing { member }, list_members(alloc, stream)?))
        }
        MetaAnswer::Failed { place, why } => after_failed_making(alloc, stream, *place, *why),
        _ => Ok(Move::Stays),
    }
}

/// It has the lock, or another member has a lesser number and it leaves.
fn settle(member: &Path, least: u64) -> Result<LockMove, NoMemory>
    ensures { IfOk result (λ move. (stage : LockStage) → move_of lock_stage_of stage move
        ≡ answer_of (lock_or_leave member.now least)) }
{
    let member = member.share()?;
    if least < number_behind(member.as_slice()) {
        let request = leave_lock(&member)?;
        Ok(asks(Stage::Leaving { member, least }, request))
    } else {
        Ok(done(Stage::Over, member))
    }
}

/// The answer to the listing of the members.
#[tactic(auto, unfolding(dl_rules_stream::specs::Locks::lock_answers))]
fn after_listing(
    alloc: Global,
    stream: &Name,
    member: &Path,
    answer: &MetaAnswer,
) -> Result<LockMove, NoMemory>
    ensures { IfOk result (λ move. move_of lock_stage_of (ListingMembers member.now) move
        ≡ answer_of (lock_answers stream.now (ListingMembers member.now) answer.now)) }
{
    match answer {
        MetaAnswer::One(OneAnswer::Names(names)) => {
            let own = number_behind(member.as_slice());
            settle(member, least_of(own, names.as_slice()))
        }
        MetaAnswer::Failed { place, why } => {
            let request = list_members(alloc, stream)?;
            gives_up(alloc, Stage::Over, request, *place, *why)
        }
        _ => Ok(Move::Stays),
    }
}

/// The answer to the deletion of its member, by which it leaves the lock to the member of the least number.
#[tactic(auto, unfolding(dl_rules_stream::specs::Locks::lock_answers))]
fn after_leaving(
    alloc: Global,
    member: &Path,
    least: u64,
    answer: &MetaAnswer,
) -> Result<LockMove, NoMemory>
    ensures { (stream : List ℕ) → IfOk result (λ move.
        move_of lock_stage_of (LeavingLock member.now least) move
        ≡ answer_of (lock_answers stream (LeavingLock member.now least) answer.now)) }
{
    match answer {
        MetaAnswer::Failed { place, why } => {
            let request = leave_lock(member)?;
            gives_up(alloc, Stage::Over, request, *place, *why)
        }
        _ => Ok(refused(Stage::Over, Refusal::Held { member: least })),
    }
}

/// What the task does at the answer to the request that its stage waits for.
#[tactic(auto, unfolding(dl_rules_stream::specs::Locks::lock_answers))]
pub(crate) fn after_answer(
    alloc: Global,
    stream: &Name,
    stage: &Stage,
    answer: &MetaAnswer,
) -> Result<LockMove, NoMemory>
    ensures { IfOk result (λ move. move_of lock_stage_of (lock_stage_of stage.now) move
        ≡ answer_of (lock_answers stream.now (lock_stage_of stage.now) answer.now)) }
{
    match stage {
        Stage::Making => after_making(alloc, stream, answer),
        Stage::Listing { member } => after_listing(alloc, stream, member, answer),
        Stage::Leaving { member, least } => after_leaving(alloc, member, *least, answer),
        Stage::Over => Ok(Move::Stays),
    }
}
