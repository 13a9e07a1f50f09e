//! What a read does at the answer to the reading of a ledger's node.

ghost use Rattle.std.specs.Prelude.{◌≡◌, ◌≤◌, ℕ, List, IfOk};
ghost use Rattle.dl_types.specs.declared.meta_answer.MetaAnswer.TheVariants as answer;
ghost use Rattle.dl_types.specs.declared.refusal.Refusal.TheVariants as refused;
ghost use Rattle.dl_formats.specs.declared.segment_name.SegmentName.{SegmentName};
ghost use Rattle.dl_formats.specs.Keys.{Ledger, path_of};
ghost use Rattle.dl_rules_ledger.specs.Readers.{ReaderStage};
ghost use Rattle.dl_rules_stream.specs.Orders as order;
ghost use Rattle.dl_rules_stream.specs.Listings.{ledger_node_of, ledger_of};
ghost use Rattle.dl_rules_stream.specs.LogReaders as rule;
ghost use Rattle.dl_rules_stream.specs.LogReaders.{is_gone_again, read_answers};
ghost use Rattle.dl_requests.specs.LedgerNodes.{node_of_meta};
ghost use Rattle.dl_reader.specs.Steps.{IsAfter, IsStep};
ghost use Rattle.dl_reader.specs.Walks.{IsWalk};

use crate::entries::reads_upto;
use crate::given::Given;
use crate::reading::Reading;
use crate::segments::{begins, gives_up};
use crate::stage::Stage;
use crate::step::{After, Ahead, Step};
use crate::walk::{Walk, new_walk};
use dl_formats::ledger::{LedgerMeta, LedgerState};
use dl_formats::paths::ledger_path;
use dl_formats::segment::SegmentMeta;
use dl_msg::turn::Turn;
use dl_requests::ledger_nodes::{get_ledger, ledger_in};
use dl_requests::nodes::ledger_of;
use dl_types::memory::NoMemory;
use dl_types::meta_answer::MetaAnswer;
use dl_types::one_answer::OneAnswer;
use dl_types::refusal::Refusal;
use dl_types::why::Why;
use std::alloc::Global;
use std::collections::VecDeque;

/// A segment that isn't closed is the last one that is walked: it is asked how many of its entries can be read.
fn counts(alloc: Global, walk: Walk) -> Result<Step, NoMemory>
    ensures { IfOk result (λ step. (x : rule.ReaderArgs) (r : rule.Read)
        (left : List SegmentName) (w : rule.Walk) (s : ReaderStage) → IsWalk w s walk
        → IsStep x r left (rule.counts r w) step) }
{
    let (walk, turn) = walk.ask_count()?;
    Ok(Step::Goes {
        stage: Stage::Counting { walk },
        turn,
        ahead: Ahead::Are(VecDeque::new(alloc)),
    })
}

/// A segment in progress, by the metadata of its ledger.
fn in_progress(
    alloc: Global,
    given: &Given,
    reading: &Reading,
    walk: Walk,
    meta: LedgerMeta,
) -> Result<Step, NoMemory>
    ensures { IfOk result (λ step. (w : rule.Walk) (s : ReaderStage)
        → IsWalk w s walk → w.rest ≡ reading.now.left
        → IsStep given.now reading.now.read reading.now.left
        (rule.in_progress given.now reading.now.read w (node_of_meta meta) meta.state) step) }
{
    match meta.state {
        LedgerState::Closed => reads_upto(alloc, given, reading, walk, meta.count),
        LedgerState::Writing => counts(alloc, walk),
        LedgerState::Recovering => counts(alloc, walk),
    }
}

/// A segment by its node and the metadata of its ledger; of a completed one all entries can be read.
fn after_meta(
    alloc: Global,
    given: &Given,
    reading: &Reading,
    segment: SegmentMeta,
    meta: LedgerMeta,
) -> Result<Step, NoMemory>
    requires { meta.q.e ≤ given.now.conf.b }
    ensures { IfOk result (λ step. IsStep given.now reading.now.read reading.now.left
        (rule.after_ledger given.now reading.now.read segment reading.now.left (node_of_meta meta))
        step) }
{
    match segment {
        SegmentMeta::Completed {
            segment,
            ledger,
            entries,
            ..
        } => {
            let walk = new_walk(alloc, given, reading.tag, segment, ledger, meta)?;
            reads_upto(alloc, given, reading, walk, entries)
        }
        SegmentMeta::InProgress { segment, ledger } => {
            let walk = new_walk(alloc, given, reading.tag, segment, ledger, meta)?;
            in_progress(alloc, given, reading, walk, meta)
        }
    }
}

/// The order gives up at the node of a ledger.
fn gives_up_at(alloc: Global, ledger: u64) -> Result<Step, NoMemory>
    ensures { IfOk result (λ step. (x : rule.ReaderArgs) (r : rule.Read) (left : List SegmentName)
        → IsStep x r left
        (rule.NoRead, order.Refused (refused.GaveUp (path_of (Ledger ledger)))) step) }
{
    let path = ledger_path(alloc, ledger)?;
    Ok(Step::Goes {
        stage: Stage::NoRead,
        turn: Turn::Refused(Refusal::GaveUp { path }),
        ahead: Ahead::Stay,
    })
}

/// Whether the node of this ledger was gone the time before.
fn is_gone_again(gone: Option<u64>, ledger: u64) -> bool
    ensures { result ≡ is_gone_again gone ledger }
{
    match gone {
        Some(before) => before == ledger,
        None => false,
    }
}

/// The ledger's node is gone: the read begins again, but not twice in a row for one ledger.
fn after_gone(
    alloc: Global,
    given: &Given,
    reading: &Reading,
    ledger: u64,
) -> Result<Step, NoMemory>
    ensures { IfOk result (λ step. IsStep given.now reading.now.read reading.now.left
        (rule.after_gone given.now reading.now.read ledger) step) }
{
    if is_gone_again(reading.gone, ledger) {
        gives_up_at(alloc, ledger)
    } else {
        begins(alloc, given, Some(ledger))
    }
}

/// The node of the ledger was read.
fn after_bytes(
    alloc: Global,
    given: &Given,
    reading: &Reading,
    segment: SegmentMeta,
    bytes: &[u8],
) -> Result<Step, NoMemory>
    ensures { IfOk result (λ step. IsStep given.now reading.now.read reading.now.left
        (order.or_refused rule.NoRead
        (rule.after_ledger given.now reading.now.read segment reading.now.left)
        (ledger_node_of given.now.conf (ledger_of segment) bytes.now)) step) }
{
    match ledger_in(&given.conf, bytes) {
        Some(meta) => after_meta(alloc, given, reading, segment, meta),
        None => gives_up_at(alloc, ledger_of(&segment)),
    }
}

/// The reading of the ledger's node failed: it is gone, or there is no way on.
#[tactic(auto, unfolding(dl_rules_stream::specs::LogReaders::read_answers))]
fn after_failed(
    alloc: Global,
    given: &Given,
    reading: &Reading,
    segment: SegmentMeta,
    place: u16,
    why: Why,
) -> Result<Step, NoMemory>
    ensures { IfOk result (λ step. (number : ℕ)
        → let at = rule.GettingLedger reading.now.read segment number reading.now.left in
        IsStep given.now reading.now.read reading.now.left
        (read_answers given.now at (answer.Failed place why)) step) }
{
    let ledger = ledger_of(&segment);
    match why {
        Why::NoNode => after_gone(alloc, given, reading, ledger),
        _ => gives_up(alloc, get_ledger(alloc, ledger)?, place, why),
    }
}

/// The answer to the reading of the ledger's node.
#[tactic(auto, unfolding(dl_rules_stream::specs::LogReaders::read_answers))]
pub(crate) fn at_ledger(
    alloc: Global,
    given: &Given,
    reading: &Reading,
    segment: SegmentMeta,
    answer: &MetaAnswer,
) -> Result<After, NoMemory>
    ensures { IfOk result (λ after. (number : ℕ)
        → let at = rule.GettingLedger reading.now.read segment number reading.now.left in
        IsAfter given.now reading.now.read reading.now.left at
        (read_answers given.now at answer.now) after) }
{
    match answer {
        MetaAnswer::One(OneAnswer::Bytes { bytes, .. }) => {
            let step = after_bytes(alloc, given, reading, segment, bytes.as_slice())?;
            Ok(After::Takes(step))
        }
        MetaAnswer::Failed { place, why } => {
            let step = after_failed(alloc, given, reading, segment, *place, *why)?;
            Ok(After::Takes(step))
        }
        _ => Ok(After::Stays),
    }
}
