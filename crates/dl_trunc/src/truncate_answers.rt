//! What a task that moves a stream's point up does at an answer, stage by stage.

ghost use Rattle.std.specs.Prelude.{◌≡◌, ◌≤◌, IfOk, IfSome};
ghost use Rattle.dl_types.specs.declared.meta_answer.MetaAnswer.TheVariants as answer;
ghost use Rattle.dl_formats.specs.NodeBytes.{ten_nines};
ghost use Rattle.dl_rules_stream.specs.Listings.{number_of};
ghost use Rattle.dl_rules_stream.specs.Orders.{or_refused};
ghost use Rattle.dl_rules_stream.specs.Truncates.{LookingAtCut, SettingCut, TruncateDone};
ghost use Rattle.dl_rules_stream.specs.Truncates.{end_by, bounds_of};
ghost use Rattle.dl_rules_stream.specs.Truncates as rule;
ghost use Rattle.dl_rules_stream.specs.Truncates.{within_bounds, truncate_answers};
ghost use Rattle.dl_requests.specs.Turns.{answer_of, move_of};
ghost use Rattle.dl_trunc.specs.Truncating.{given_of, truncate_stage_of, bounds_with};

use crate::truncate_stage::TruncateStage;
use dl_formats::maxseq::MaxSeq;
use dl_formats::segment_name::SegmentName;
use dl_requests::cuts::{look_cut, set_cut};
use dl_requests::listing::last_listed;
use dl_requests::moves::{Move, asks, done, gives_up, refused};
use dl_requests::nodes::{maxseq_of, point_of};
use dl_types::dlsn::Dlsn;
use dl_types::memory::NoMemory;
use dl_types::meta_answer::MetaAnswer;
use dl_types::name::Name;
use dl_types::one_answer::OneAnswer;
use dl_types::path::Path;
use dl_types::refusal::Refusal;
use dl_types::why::Why;
use std::alloc::Global;

/// Where the task goes from a stage.
type TruncateMove = Move<TruncateStage, Dlsn>;

/// The end of a stream, by its last segment, or where none is listed by the greatest that there was.
fn end_by(maxseq: MaxSeq, last: Option<SegmentName>) -> Dlsn
    requires maxseq { maxseq.segment ≤ ten_nines }
    requires last { IfSome last (λ segment. number_of segment ≤ ten_nines) }
    ensures { result ≡ end_by maxseq last }
{
    let segment = match last {
        Some(SegmentName::Progress { segment }) => segment,
        Some(SegmentName::Completed { segment }) => segment + 1,
        None => maxseq.segment + 1,
    };
    Dlsn {
        segment,
        entry: 0,
        slot: 0,
    }
}

/// A new point is to be above the old one, and at most the end.
fn within_bounds(
    alloc: Global,
    stream: &Name,
    place: Dlsn,
    version: u64,
    point: Dlsn,
    end: Dlsn,
) -> Result<TruncateMove, NoMemory>
    ensures { IfOk result (λ move. (stage : rule.TruncateStage)
        → move_of truncate_stage_of stage move
        ≡ answer_of (within_bounds (given_of stream.now place) version (bounds_with point end))) }
{
    if !point.is_before(place) {
        Ok(refused(TruncateStage::Over, Refusal::Truncated { point }))
    } else if end.is_before(place) {
        Ok(refused(TruncateStage::Over, Refusal::BeyondEnd { end }))
    } else {
        let request = set_cut(alloc, stream, place, version)?;
        Ok(asks(TruncateStage::Setting { version }, request))
    }
}

/// The segments and the point were read: the names of the segments, and the bytes of `cut` with its version and of `maxseq`.
fn after_look(
    alloc: Global,
    stream: &Name,
    place: Dlsn,
    names: &[Path],
    cut: &[u8],
    version: u64,
    maxseq: &[u8],
) -> Result<TruncateMove, NoMemory>
    ensures { IfOk result (λ move. (stage : rule.TruncateStage)
        → move_of truncate_stage_of stage move
        ≡ answer_of (or_refused TruncateDone (within_bounds (given_of stream.now place) version)
        (bounds_of stream.now names.now cut.now maxseq.now))) }
{
    let point = match point_of(alloc, stream, cut)? {
        Ok(point) => point,
        Err(refusal) => return Ok(refused(TruncateStage::Over, refusal)),
    };
    match maxseq_of(alloc, stream, maxseq)? {
        Ok(maxseq) => {
            let end = end_by(maxseq, last_listed(alloc, names)?);
            within_bounds(alloc, stream, place, version, point, end)
        }
        Err(refusal) => Ok(refused(TruncateStage::Over, refusal)),
    }
}

/// The look failed: the stream isn't there, or there is no way on.
#[tactic(auto, using(crate::proofs::Failures::failed_look), unfolding(dl_rules_stream::specs::Truncates::truncate_answers))]
fn after_failed_look(
    alloc: Global,
    stream: &Name,
    place: Dlsn,
    at: u16,
    why: Why,
) -> Result<TruncateMove, NoMemory>
    ensures { IfOk result (λ move. move_of truncate_stage_of LookingAtCut move
        ≡ answer_of (truncate_answers (given_of stream.now place) LookingAtCut
        (answer.Failed at why))) }
{
    match why {
        Why::NoNode => Ok(refused(TruncateStage::Over, Refusal::NoStream)),
        _ => gives_up(
            alloc,
            TruncateStage::Over,
            look_cut(alloc, stream)?,
            at,
            why,
        ),
    }
}

/// The answers to the operations of the look.
#[tactic(auto, unfolding(dl_rules_stream::specs::Truncates::truncate_answers))]
fn after_many(
    alloc: Global,
    stream: &Name,
    place: Dlsn,
    answers: &[OneAnswer],
) -> Result<TruncateMove, NoMemory>
    ensures { IfOk result (λ move. move_of truncate_stage_of LookingAtCut move
        ≡ answer_of (truncate_answers (given_of stream.now place) LookingAtCut
        (answer.Many answers.now))) }
{
    match answers {
        [
            OneAnswer::Names(names),
            OneAnswer::Bytes {
                bytes: cut,
                version,
            },
            OneAnswer::Bytes { bytes: maxseq, .. },
        ] => {
            let (names, cut, maxseq) = (names.as_slice(), cut.as_slice(), maxseq.as_slice());
            after_look(alloc, stream, place, names, cut, *version, maxseq)
        }
        _ => Ok(Move::Stays),
    }
}

/// The answer to the look.
#[tactic(auto, unfolding(dl_rules_stream::specs::Truncates::truncate_answers))]
fn after_looking(
    alloc: Global,
    stream: &Name,
    place: Dlsn,
    answer: &MetaAnswer,
) -> Result<TruncateMove, NoMemory>
    ensures { IfOk result (λ move. move_of truncate_stage_of LookingAtCut move
        ≡ answer_of (truncate_answers (given_of stream.now place) LookingAtCut answer.now)) }
{
    match answer {
        MetaAnswer::Many(answers) => after_many(alloc, stream, place, answers.as_slice()),
        MetaAnswer::Failed { place: at, why } => {
            after_failed_look(alloc, stream, place, *at, *why)
        }
        _ => Ok(Move::Stays),
    }
}

/// The answer to the setting of the point.
#[tactic(auto, unfolding(dl_rules_stream::specs::Truncates::truncate_answers))]
fn after_setting(
    alloc: Global,
    stream: &Name,
    place: Dlsn,
    version: u64,
    answer: &MetaAnswer,
) -> Result<TruncateMove, NoMemory>
    ensures { IfOk result (λ move. move_of truncate_stage_of (SettingCut version) move
        ≡ answer_of (truncate_answers (given_of stream.now place) (SettingCut version)
        answer.now)) }
{
    match answer {
        MetaAnswer::Failed { place: at, why } => {
            let request = set_cut(alloc, stream, place, version)?;
            gives_up(alloc, TruncateStage::Over, request, *at, *why)
        }
        _ => Ok(done(TruncateStage::Over, place)),
    }
}

/// What the task does at the answer to the request that its stage waits for.
#[tactic(auto, unfolding(dl_rules_stream::specs::Truncates::truncate_answers))]
pub(crate) fn after_answer(
    alloc: Global,
    stream: &Name,
    place: Dlsn,
    stage: &TruncateStage,
    answer: &MetaAnswer,
) -> Result<TruncateMove, NoMemory>
    ensures { let at = truncate_stage_of stage.now in IfOk result (λ move.
        move_of truncate_stage_of at move
        ≡ answer_of (truncate_answers (given_of stream.now place) at answer.now)) }
{
    match stage {
        TruncateStage::Looking => after_looking(alloc, stream, place, answer),
        TruncateStage::Setting { version } => {
            after_setting(alloc, stream, place, *version, answer)
        }
        TruncateStage::Over => Ok(Move::Stays),
    }
}
