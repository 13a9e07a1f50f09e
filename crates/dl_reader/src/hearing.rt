//! What a read does at what it hears, by its stage.

ghost use Rattle.std.specs.Prelude.{◌≡◌, IfOk};
ghost use Rattle.dl_rules_stream.specs.LogReaders.{ReadStage, read_answers, read_hears, read_told};
ghost use Rattle.dl_reader.specs.Standing.{StageStands};
ghost use Rattle.dl_reader.specs.Steps.{IsAfter};

use crate::entries::{at_counting, at_fetching};
use crate::given::Given;
use crate::ledgers::at_ledger;
use crate::listing::at_listing;
use crate::reading::Reading;
use crate::segments::at_segment;
use crate::stage::Stage;
use crate::step::After;
use dl_msg::heard::Heard;
use dl_msg::msg::Msg;
use dl_types::memory::NoMemory;
use dl_types::meta_answer::MetaAnswer;
use std::alloc::Global;

/// What a read does at the reply to its request.
#[tactic(auto, unfolding(dl_rules_stream::specs::LogReaders::read_answers))]
fn after_reply(
    alloc: Global,
    given: &Given,
    reading: &Reading,
    stage: &Stage,
    answer: &MetaAnswer,
) -> Result<After, NoMemory>
    ensures { IfOk result (λ after. (s : ReadStage)
        → StageStands reading.now.read reading.now.left s stage.now
        → IsAfter given.now reading.now.read reading.now.left s
        (read_answers given.now s answer.now) after) }
{
    match stage {
        Stage::ListingCut => at_listing(alloc, given, reading, answer),
        Stage::GettingSegment { segment } => at_segment(alloc, given, *segment, answer),
        Stage::GettingLedger { segment } => at_ledger(alloc, given, reading, *segment, answer),
        _ => Ok(After::Stays),
    }
}

/// What a read does at a message of a bookie.
fn after_message(
    alloc: Global,
    given: &Given,
    reading: &Reading,
    stage: &Stage,
    bookie: u8,
    msg: &Msg,
) -> Result<After, NoMemory>
    ensures { IfOk result (λ after. (s : ReadStage)
        → StageStands reading.now.read reading.now.left s stage.now
        → IsAfter given.now reading.now.read reading.now.left s
        (read_told given.now s bookie msg.now) after) }
{
    match stage {
        Stage::Counting { walk } => at_counting(alloc, given, reading, walk, bookie, msg),
        Stage::Fetching { walk, span } => {
            at_fetching(alloc, given, reading, walk, *span, bookie, msg)
        }
        _ => Ok(After::Stays),
    }
}

/// What a read does at what it hears.
#[tactic(auto, unfolding(dl_rules_stream::specs::LogReaders::read_hears))]
pub(crate) fn after_heard(
    alloc: Global,
    given: &Given,
    reading: &Reading,
    stage: &Stage,
    heard: &Heard,
) -> Result<After, NoMemory>
    ensures { IfOk result (λ after. (s : ReadStage)
        → StageStands reading.now.read reading.now.left s stage.now
        → IsAfter given.now reading.now.read reading.now.left s
        (read_hears given.now s heard.now) after) }
{
    match heard {
        Heard::Reply(answer) => after_reply(alloc, given, reading, stage, answer),
        Heard::From(bookie, msg) => after_message(alloc, given, reading, stage, *bookie, msg),
    }
}
