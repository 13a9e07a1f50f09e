//! What a read does at the answer to the reading of a segment's node, and how it goes on to the next segment.

ghost use Rattle.std.specs.Prelude.{◌≡◌, ◌∷◌, [], ℕ, List, IfOk};
ghost use Rattle.dl_types.specs.declared.meta_answer.MetaAnswer.TheVariants as answer;
ghost use Rattle.dl_formats.specs.declared.segment_name.SegmentName.{SegmentName};
ghost use Rattle.dl_rules_stream.specs.Requests.{Request, op_of};
ghost use Rattle.dl_rules_stream.specs.Orders as order;
ghost use Rattle.dl_rules_stream.specs.Listings.{number_of, segment_of};
ghost use Rattle.dl_rules_stream.specs.LogReaders as rule;
ghost use Rattle.dl_rules_stream.specs.LogReaders.{Read, read_answers};
ghost use Rattle.dl_reader.specs.Steps.{IsAfter, IsStep};

use crate::given::Given;
use crate::stage::Stage;
use crate::step::{After, Ahead, Step};
use dl_formats::segment::SegmentMeta;
use dl_formats::segment_name::SegmentName;
use dl_msg::turn::Turn;
use dl_requests::ledger_nodes::get_ledger;
use dl_requests::nodes::{ledger_of, segment_of};
use dl_requests::refusals::no_way_on;
use dl_types::memory::NoMemory;
use dl_types::meta_answer::MetaAnswer;
use dl_types::meta_op::MetaOp;
use dl_types::one_answer::OneAnswer;
use dl_types::why::Why;
use std::alloc::Global;
use std::collections::VecDeque;

/// The read is refused by a failure of its request, from which there is no way on.
pub(crate) fn gives_up(
    alloc: Global,
    request: MetaOp,
    place: u16,
    why: Why,
) -> Result<Step, NoMemory>
    ensures { IfOk result (λ step. (x : rule.ReaderArgs) (r : Read) (left : List SegmentName)
        (asked : Request) → request ≡ op_of asked
        → IsStep x r left (rule.NoRead, order.Refused (order.no_way_on asked place why)) step) }
{
    let refusal = no_way_on(alloc, request, place, why)?;
    Ok(Step::Goes {
        stage: Stage::NoRead,
        turn: Turn::Refused(refusal),
        ahead: Ahead::Stay,
    })
}

/// The read begins again; the node of this ledger was gone.
pub(crate) fn begins(alloc: Global, given: &Given, gone: Option<u64>) -> Result<Step, NoMemory>
    ensures { IfOk result (λ step. (r : Read) (left : List SegmentName)
        → IsStep given.now r left (rule.begins given.now r gone) step) }
{
    let request = given.list(alloc)?;
    Ok(Step::Begins { gone, request })
}

/// The next segment is walked, where one is left.
pub(crate) fn walks(
    alloc: Global,
    given: &Given,
    left: &VecDeque<SegmentName>,
) -> Result<Step, NoMemory>
    ensures { IfOk result (λ step. (r : Read)
        → IsStep given.now r left.now.items (rule.walks given.now r left.now.items) step) }
{
    match left.front() {
        None => Ok(Step::Ends),
        Some(segment) => {
            let segment = *segment;
            let request = given.get(alloc, segment)?;
            Ok(Step::Goes {
                stage: Stage::GettingSegment { segment },
                turn: Turn::Ask(request),
                ahead: Ahead::Pass,
            })
        }
    }
}

/// The first of these segments is walked, where there is one.
pub(crate) fn walks_these(
    alloc: Global,
    given: &Given,
    mut segments: VecDeque<SegmentName>,
) -> Result<Step, NoMemory>
    ensures { IfOk result (λ step. (r : Read) (left : List SegmentName)
        → IsStep given.now r left (rule.walks given.now r segments.items) step) }
{
    match segments.pop_front() {
        None => Ok(Step::Ends),
        Some(segment) => {
            let request = given.get(alloc, segment)?;
            Ok(Step::Goes {
                stage: Stage::GettingSegment { segment },
                turn: Turn::Ask(request),
                ahead: Ahead::Are(segments),
            })
        }
    }
}

/// The node of a segment's ledger is read.
fn reads_ledger(alloc: Global, segment: SegmentMeta) -> Result<Step, NoMemory>
    ensures { IfOk result (λ step. (x : rule.ReaderArgs) (r : Read) (left : List SegmentName)
        (number : ℕ) → IsStep x r left (rule.after_segment x r number left segment) step) }
{
    let request = get_ledger(alloc, ledger_of(&segment))?;
    Ok(Step::Goes {
        stage: Stage::GettingLedger { segment },
        turn: Turn::Ask(request),
        ahead: Ahead::Stay,
    })
}

/// The node of the segment was read.
fn after_bytes(
    alloc: Global,
    given: &Given,
    name: SegmentName,
    bytes: &[u8],
) -> Result<Step, NoMemory>
    ensures { IfOk result (λ step. (r : Read) (left : List SegmentName)
        → IsStep given.now r left (order.or_refused rule.NoRead
        (rule.after_segment given.now r (number_of name) left)
        (segment_of given.now.stream name bytes.now)) step) }
{
    match segment_of(alloc, &given.stream, name, bytes)? {
        Ok(segment) => reads_ledger(alloc, segment),
        Err(refusal) => Ok(Step::Goes {
            stage: Stage::NoRead,
            turn: Turn::Refused(refusal),
            ahead: Ahead::Stay,
        }),
    }
}

/// The reading of the segment's node failed: the segment is there no more, and the read begins again, or there is no way on.
#[tactic(auto, unfolding(dl_rules_stream::specs::LogReaders::read_answers))]
fn after_failed(
    alloc: Global,
    given: &Given,
    name: SegmentName,
    place: u16,
    why: Why,
) -> Result<Step, NoMemory>
    ensures { IfOk result (λ step. (r : Read) (left : List SegmentName)
        → let at = rule.GettingSegment r name left in
        IsStep given.now r left (read_answers given.now at (answer.Failed place why)) step) }
{
    match why {
        Why::NoNode => begins(alloc, given, None),
        _ => gives_up(alloc, given.get(alloc, name)?, place, why),
    }
}

/// The answer to the reading of the segment's node.
#[tactic(auto, unfolding(dl_rules_stream::specs::LogReaders::read_answers))]
pub(crate) fn at_segment(
    alloc: Global,
    given: &Given,
    name: SegmentName,
    answer: &MetaAnswer,
) -> Result<After, NoMemory>
    ensures { IfOk result (λ after. (r : Read) (left : List SegmentName)
        → let at = rule.GettingSegment r name left in
        IsAfter given.now r left at (read_answers given.now at answer.now) after) }
{
    match answer {
        MetaAnswer::One(OneAnswer::Bytes { bytes, .. }) => {
            let step = after_bytes(alloc, given, name, bytes.as_slice())?;
            Ok(After::Takes(step))
        }
        MetaAnswer::Failed { place, why } => {
            let step = after_failed(alloc, given, name, *place, *why)?;
            Ok(After::Takes(step))
        }
        _ => Ok(After::Stays),
    }
}
