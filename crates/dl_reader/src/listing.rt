//! What a read does at the list of the stream's segments.

ghost use Rattle.std.specs.Prelude.{◌≡◌, ◌∷◌, [], ℕ, List, IfOk, filter, nat_le};
ghost use Rattle.dl_types.specs.declared.meta_answer.MetaAnswer.TheVariants as answer;
ghost use Rattle.dl_types.specs.declared.one_answer.OneAnswer.TheVariants.{Bytes, Names};
ghost use Rattle.dl_formats.specs.declared.segment_name.SegmentName.{SegmentName};
ghost use Rattle.dl_rules_stream.specs.Orders.{or_refused};
ghost use Rattle.dl_rules_stream.specs.Listings.{number_of, point_of, segments_of};
ghost use Rattle.dl_rules_stream.specs.LogReaders as rule;
ghost use Rattle.dl_rules_stream.specs.LogReaders.{least_segment, read_answers};
ghost use Rattle.dl_reader.specs.Steps.{IsAfter, IsStep};

use crate::given::Given;
use crate::reading::Reading;
use crate::segments::{gives_up, walks_these};
use crate::stage::Stage;
use crate::step::{After, Ahead, Step};
use dl_formats::segment_name::SegmentName;
use dl_msg::turn::Turn;
use dl_requests::listing::{number_of, segments_of};
use dl_requests::nodes::point_of;
use dl_types::dlsn::Dlsn;
use dl_types::memory::NoMemory;
use dl_types::meta_answer::MetaAnswer;
use dl_types::one_answer::OneAnswer;
use dl_types::path::Path;
use dl_types::refusal::Refusal;
use dl_types::why::Why;
use std::alloc::Global;
use std::collections::VecDeque;

/// The least segment that is listed, or that of the point where none is.
fn least_segment(point: Dlsn, segments: &[SegmentName]) -> u64
    ensures { result ≡ least_segment point segments.now }
{
    match segments {
        [] => point.segment,
        [segment, ..] => number_of(*segment),
    }
}

/// Those of the segments from this number on, in their order.
fn those_from(
    alloc: Global,
    least: u64,
    segments: &[SegmentName],
) -> Result<VecDeque<SegmentName>, NoMemory>
    ensures { IfOk result (λ left. left.items
        ≡ filter (λ segment. nat_le least (number_of segment)) segments.now) }
{
    let mut left = VecDeque::new(alloc);
    for segment in segments {
        if least <= number_of(*segment) {
            left.push_back(*segment)?;
        }
    }
    Ok(left)
}

/// The segments from the cursor's on are walked, unless a purge has overtaken the cursor.
fn after_list(
    alloc: Global,
    given: &Given,
    reading: &Reading,
    segments: &[SegmentName],
    point: Dlsn,
) -> Result<Step, NoMemory>
    ensures { IfOk result (λ step. IsStep given.now reading.now.read reading.now.left
        (rule.after_list given.now reading.now.read segments.now point) step) }
{
    let first = reading.first_segment();
    if first < least_segment(point, segments) {
        return Ok(Step::Goes {
            stage: Stage::NoRead,
            turn: Turn::Refused(Refusal::Truncated { point }),
            ahead: Ahead::Stay,
        });
    }
    let segments = those_from(alloc, first, segments)?;
    walks_these(alloc, given, segments)
}

/// The segments and the point were read.
fn after_names(
    alloc: Global,
    given: &Given,
    reading: &Reading,
    names: &[Path],
    cut: &[u8],
) -> Result<Step, NoMemory>
    ensures { IfOk result (λ step. IsStep given.now reading.now.read reading.now.left
        (or_refused rule.NoRead (rule.after_list given.now reading.now.read (segments_of names.now))
        (point_of given.now.stream cut.now)) step) }
{
    match point_of(alloc, &given.stream, cut)? {
        Ok(point) => {
            let segments = segments_of(alloc, names)?;
            after_list(alloc, given, reading, segments.as_slice(), point)
        }
        Err(refusal) => Ok(Step::Goes {
            stage: Stage::NoRead,
            turn: Turn::Refused(refusal),
            ahead: Ahead::Stay,
        }),
    }
}

/// The answers to the listing of the segments and to the reading of the point.
#[tactic(auto, unfolding(dl_rules_stream::specs::LogReaders::read_answers))]
fn after_many(
    alloc: Global,
    given: &Given,
    reading: &Reading,
    answers: &[OneAnswer],
) -> Result<After, NoMemory>
    ensures { let at = rule.ListingCut reading.now.read in
        IfOk result (λ after. IsAfter given.now reading.now.read reading.now.left at
        (read_answers given.now at (answer.Many answers.now)) after) }
{
    match answers {
        [OneAnswer::Names(names), OneAnswer::Bytes { bytes: cut, .. }] => {
            let step = after_names(alloc, given, reading, names.as_slice(), cut.as_slice())?;
            Ok(After::Takes(step))
        }
        _ => Ok(After::Stays),
    }
}

/// The listing failed: the stream isn't there, or there is no way on.
#[tactic(auto, unfolding(dl_rules_stream::specs::LogReaders::read_answers))]
fn after_failed(alloc: Global, given: &Given, place: u16, why: Why) -> Result<Step, NoMemory>
    ensures { IfOk result (λ step. (r : rule.Read) (left : List SegmentName)
        → IsStep given.now r left
        (read_answers given.now (rule.ListingCut r) (answer.Failed place why)) step) }
{
    match why {
        Why::NoNode => Ok(Step::Goes {
            stage: Stage::NoRead,
            turn: Turn::Refused(Refusal::NoStream),
            ahead: Ahead::Stay,
        }),
        _ => gives_up(alloc, given.list(alloc)?, place, why),
    }
}

/// The answer to the listing.
#[tactic(auto, unfolding(dl_rules_stream::specs::LogReaders::read_answers))]
pub(crate) fn at_listing(
    alloc: Global,
    given: &Given,
    reading: &Reading,
    answer: &MetaAnswer,
) -> Result<After, NoMemory>
    ensures { let at = rule.ListingCut reading.now.read in
        IfOk result (λ after. IsAfter given.now reading.now.read reading.now.left at
        (read_answers given.now at answer.now) after) }
{
    match answer {
        MetaAnswer::Many(answers) => after_many(alloc, given, reading, answers.as_slice()),
        MetaAnswer::Failed { place, why } => {
            let step = after_failed(alloc, given, *place, *why)?;
            Ok(After::Takes(step))
        }
        _ => Ok(After::Stays),
    }
}
