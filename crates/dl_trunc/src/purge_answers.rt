//! What a task that deletes the segments below a stream's point does at an answer, stage by stage.

ghost use Rattle.std.specs.Prelude.{◌≡◌, ℕ, List, IfOk, filter};
ghost use Rattle.dl_types.specs.declared.meta_answer.MetaAnswer.TheVariants as answer;
ghost use Rattle.dl_formats.specs.declared.segment_name.SegmentName.{SegmentName};
ghost use Rattle.dl_rules_stream.specs.Listings.{point_of, segment_of};
ghost use Rattle.dl_msg.specs.declared.turn.Turn.TheVariants as turn;
ghost use Rattle.dl_rules_stream.specs.Requests.{Request, op_of};
ghost use Rattle.dl_rules_stream.specs.Orders.{no_way_on, or_refused};
ghost use Rattle.dl_rules_stream.specs.Purges as rule;
ghost use Rattle.dl_rules_stream.specs.Purges.{is_below, after_list, after_get, purge_answers};
ghost use Rattle.dl_requests.specs.Turns.{answer_of};
ghost use Rattle.dl_trunc.specs.declared.purge_stage.PurgeStage.TheVariants.{Over};
ghost use Rattle.dl_trunc.specs.declared.purge_answers.Step.TheVariants.{Goes};
ghost use Rattle.dl_trunc.specs.Purging.{purge_stage_of, step_answer};

use crate::purge_stage::PurgeStage;
use dl_formats::segment_name::SegmentName;
use dl_msg::turn::Turn;
use dl_requests::cuts::list_cut;
use dl_requests::listing::{number_of, segments_of};
use dl_requests::nodes::{ledger_of, point_of, segment_of};
use dl_requests::refusals::no_way_on;
use dl_requests::segments::{drop_segment, get_segment};
use dl_types::memory::NoMemory;
use dl_types::meta_answer::MetaAnswer;
use dl_types::meta_op::MetaOp;
use dl_types::name::Name;
use dl_types::one_answer::OneAnswer;
use dl_types::path::Path;
use dl_types::why::Why;
use std::alloc::Global;
use std::collections::VecDeque;

/// What the task does at an answer.
#[derive(Drop)]
pub(crate) enum Step {
    /// It waits where it is.
    Stays,
    /// It goes to this stage, and answers with this turn.
    Goes(PurgeStage, Turn<u64>),
    /// These are the segments to delete: it goes on with the first.
    Lists(VecDeque<SegmentName>),
    /// The segment is there no more: it goes on with the next.
    Passes,
    /// It has deleted the segment: it counts it, and goes on with the next.
    Counts,
}

/// Whether a segment is completed, and below this one.
fn is_below(point: u64, segment: SegmentName) -> bool
    ensures { result ≡ is_below point segment }
{
    match segment {
        SegmentName::Completed { segment } => segment < point,
        SegmentName::Progress { .. } => false,
    }
}

/// Those of the segments that are completed and below this one, in their order.
fn those_below(
    alloc: Global,
    point: u64,
    segments: &[SegmentName],
) -> Result<VecDeque<SegmentName>, NoMemory>
    ensures { IfOk result (λ left. left.items ≡ filter (is_below point) segments.now) }
{
    let mut left = VecDeque::new(alloc);
    for segment in segments {
        if is_below(point, *segment) {
            left.push_back(*segment)?;
        }
    }
    Ok(left)
}

/// It is refused, since there is no way on from where its request failed.
fn gives_up(alloc: Global, request: MetaOp, place: u16, why: Why) -> Result<Step, NoMemory>
    ensures { IfOk result (λ step. (r : Request) → request ≡ op_of r
        → step ≡ Goes Over (turn.Refused (no_way_on r place why))) }
{
    let refusal = no_way_on(alloc, request, place, why)?;
    Ok(Step::Goes(PurgeStage::Over, Turn::Refused(refusal)))
}

/// The segments and the point were read.
fn after_list(alloc: Global, stream: &Name, names: &[Path], cut: &[u8]) -> Result<Step, NoMemory>
    ensures { IfOk result (λ step. (left : List SegmentName) (count : ℕ) (stage : rule.PurgeStage)
        → step_answer stream.now left count stage step
        ≡ answer_of (or_refused rule.PurgeDone (after_list stream.now names.now)
        (point_of stream.now cut.now))) }
{
    match point_of(alloc, stream, cut)? {
        Ok(point) => {
            let segments = segments_of(alloc, names)?;
            let left = those_below(alloc, point.segment, segments.as_slice())?;
            Ok(Step::Lists(left))
        }
        Err(refusal) => Ok(Step::Goes(PurgeStage::Over, Turn::Refused(refusal))),
    }
}

/// The answers to the listing of the segments and to the reading of the point.
#[tactic(auto, unfolding(dl_rules_stream::specs::Purges::purge_answers))]
fn after_many(alloc: Global, stream: &Name, answers: &[OneAnswer]) -> Result<Step, NoMemory>
    ensures { IfOk result (λ step. (left : List SegmentName) (count : ℕ)
        → step_answer stream.now left count rule.ListingCut step
        ≡ answer_of (purge_answers stream.now rule.ListingCut (answer.Many answers.now))) }
{
    match answers {
        [OneAnswer::Names(names), OneAnswer::Bytes { bytes: cut, .. }] => {
            after_list(alloc, stream, names.as_slice(), cut.as_slice())
        }
        _ => Ok(Step::Stays),
    }
}

/// The answer to the listing.
#[tactic(auto, unfolding(dl_rules_stream::specs::Purges::purge_answers))]
fn after_listing(alloc: Global, stream: &Name, answer: &MetaAnswer) -> Result<Step, NoMemory>
    ensures { IfOk result (λ step. (left : List SegmentName) (count : ℕ)
        → step_answer stream.now left count rule.ListingCut step
        ≡ answer_of (purge_answers stream.now rule.ListingCut answer.now)) }
{
    match answer {
        MetaAnswer::Many(answers) => after_many(alloc, stream, answers.as_slice()),
        MetaAnswer::Failed { place, why } => {
            gives_up(alloc, list_cut(alloc, stream)?, *place, *why)
        }
        _ => Ok(Step::Stays),
    }
}

/// The node of a segment was read.
fn after_get(
    alloc: Global,
    stream: &Name,
    segment: SegmentName,
    bytes: &[u8],
) -> Result<Step, NoMemory>
    ensures { IfOk result (λ step. (left : List SegmentName) (count : ℕ) (stage : rule.PurgeStage)
        → step_answer stream.now left count stage step
        ≡ answer_of (or_refused rule.PurgeDone (after_get stream.now segment left count)
        (segment_of stream.now segment bytes.now))) }
{
    match segment_of(alloc, stream, segment, bytes)? {
        Ok(meta) => {
            let ledger = ledger_of(&meta);
            let request = drop_segment(alloc, stream, number_of(segment), ledger)?;
            Ok(Step::Goes(PurgeStage::Dropping { segment, ledger }, Turn::Ask(request)))
        }
        Err(refusal) => Ok(Step::Goes(PurgeStage::Over, Turn::Refused(refusal))),
    }
}

/// The reading of a segment's node failed: the segment is there no more, or there is no way on.
#[tactic(auto, using(crate::proofs::Failures::failed_get), unfolding(dl_rules_stream::specs::Purges::purge_answers))]
fn after_failed_get(
    alloc: Global,
    stream: &Name,
    segment: SegmentName,
    place: u16,
    why: Why,
) -> Result<Step, NoMemory>
    ensures { IfOk result (λ step. (left : List SegmentName) (count : ℕ)
        → step_answer stream.now left count (rule.GettingSegment segment left count) step
        ≡ answer_of (purge_answers stream.now (rule.GettingSegment segment left count)
        (answer.Failed place why))) }
{
    match why {
        Why::NoNode => Ok(Step::Passes),
        _ => gives_up(alloc, get_segment(alloc, stream, segment)?, place, why),
    }
}

/// The answer to the reading of a segment's node.
#[tactic(auto, unfolding(dl_rules_stream::specs::Purges::purge_answers))]
fn after_getting(
    alloc: Global,
    stream: &Name,
    segment: SegmentName,
    answer: &MetaAnswer,
) -> Result<Step, NoMemory>
    ensures { IfOk result (λ step. (left : List SegmentName) (count : ℕ)
        → step_answer stream.now left count (rule.GettingSegment segment left count) step
        ≡ answer_of (purge_answers stream.now (rule.GettingSegment segment left count)
        answer.now)) }
{
    match answer {
        MetaAnswer::One(OneAnswer::Bytes { bytes, .. }) => {
            after_get(alloc, stream, segment, bytes.as_slice())
        }
        MetaAnswer::Failed { place, why } => {
            after_failed_get(alloc, stream, segment, *place, *why)
        }
        _ => Ok(Step::Stays),
    }
}

/// The deletion of a segment failed: the segment is there no more, or there is no way on.
#[tactic(auto, using(crate::proofs::Failures::failed_drop), unfolding(dl_rules_stream::specs::Purges::purge_answers))]
fn after_failed_drop(
    alloc: Global,
    stream: &Name,
    segment: SegmentName,
    ledger: u64,
    place: u16,
    why: Why,
) -> Result<Step, NoMemory>
    ensures { IfOk result (λ step. (left : List SegmentName) (count : ℕ)
        → step_answer stream.now left count (rule.Dropping segment ledger left count) step
        ≡ answer_of (purge_answers stream.now (rule.Dropping segment ledger left count)
        (answer.Failed place why))) }
{
    match why {
        Why::NoNode => Ok(Step::Passes),
        _ => {
            let request = drop_segment(alloc, stream, number_of(segment), ledger)?;
            gives_up(alloc, request, place, why)
        }
    }
}

/// The answer to the deletion of a segment.
#[tactic(auto, using(crate::proofs::Failures::counted), unfolding(dl_rules_stream::specs::Purges::purge_answers))]
fn after_dropping(
    alloc: Global,
    stream: &Name,
    segment: SegmentName,
    ledger: u64,
    answer: &MetaAnswer,
) -> Result<Step, NoMemory>
    ensures { IfOk result (λ step. (left : List SegmentName) (count : ℕ)
        → step_answer stream.now left count (rule.Dropping segment ledger left count) step
        ≡ answer_of (purge_answers stream.now (rule.Dropping segment ledger left count)
        answer.now)) }
{
    match answer {
        MetaAnswer::Failed { place, why } => {
            after_failed_drop(alloc, stream, segment, ledger, *place, *why)
        }
        _ => Ok(Step::Counts),
    }
}

/// What the task does at the answer to the request that its stage waits for.
#[tactic(auto, unfolding(dl_rules_stream::specs::Purges::purge_answers))]
pub(crate) fn after_answer(
    alloc: Global,
    stream: &Name,
    stage: &PurgeStage,
    answer: &MetaAnswer,
) -> Result<Step, NoMemory>
    ensures { IfOk result (λ step. (left : List SegmentName) (count : ℕ)
        → step_answer stream.now left count (purge_stage_of left count stage.now) step
        ≡ answer_of (purge_answers stream.now (purge_stage_of left count stage.now) answer.now)) }
{
    match stage {
        PurgeStage::Listing => after_listing(alloc, stream, answer),
        PurgeStage::Getting { segment } => after_getting(alloc, stream, *segment, answer),
        PurgeStage::Dropping { segment, ledger } => {
            after_dropping(alloc, stream, *segment, *ledger, answer)
        }
        PurgeStage::Over => Ok(Step::Stays),
    }
}
