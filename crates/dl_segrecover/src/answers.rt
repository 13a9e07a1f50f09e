//! What the task does at what it hears, stage by stage.

ghost use Rattle.std.specs.Prelude.{◌≡◌, ◌≤◌, ℕ, IfOk};
ghost use Rattle.dl_types.specs.declared.one_answer.OneAnswer.TheVariants.{Bytes};
ghost use Rattle.dl_types.specs.declared.meta_answer.MetaAnswer.TheVariants as answer;
ghost use Rattle.dl_formats.specs.NodeBytes.{ten_nines};
ghost use Rattle.dl_rules_ledger.specs.Readers.{ReaderStage, Fetching, asks_entry, hears};
ghost use Rattle.dl_record.specs.Reading.{entry_at};
ghost use Rattle.dl_rules_stream.specs.Nodes.{LedgerNode};
ghost use Rattle.dl_rules_stream.specs.LedgerRecoveries.{RecoveryStage, recovery_first};
ghost use Rattle.dl_rules_stream.specs.Orders.{Next, Wait, Ask, tells, within};
ghost use Rattle.dl_rules_stream.specs.SegmentRecoveries as rule;
ghost use Rattle.dl_requests.specs.Completions.{completion_by};
ghost use Rattle.dl_requests.specs.Turns.{turn_of};
ghost use Rattle.dl_lrecover.specs.Standing.{IsNodeAt};
ghost use Rattle.dl_segrecover.specs.declared.stage.Stage.{Stage};
ghost use Rattle.dl_segrecover.specs.declared.stage.Stage.TheVariants as kept;
ghost use Rattle.dl_segrecover.specs.Standing.{IsMove, IsRecovering, IsFetching, StageStands};

use crate::given::Given;
use crate::last_entry::end_in;
use crate::recovered::Recovered;
use crate::stage::Stage;
use dl_formats::paths::ledger_path;
use dl_lread::got::Got;
use dl_lread::reader::LedgerReader;
use dl_lrecover::ending::Ending;
use dl_lrecover::recovery::Recovery;
use dl_lrecover::target::Located;
use dl_msg::heard::Heard;
use dl_msg::msg::Msg;
use dl_msg::turn::Turn;
use dl_requests::moves::{Move, asks, done, gives_up, refused, tells};
use dl_requests::nodes::ledger_of;
use dl_requests::segment_end::SegmentEnd;
use dl_types::memory::NoMemory;
use dl_types::meta_answer::MetaAnswer;
use dl_types::one_answer::OneAnswer;
use dl_types::refusal::Refusal;
use dl_types::txid::TxId;
use dl_types::why::Why;
use std::alloc::Global;

/// Where the task goes from a stage.
type SegmentMove = Move<Stage, Recovered>;

/// The segment is completed, with these counts and this last transaction id.
fn completes(
    alloc: Global,
    given: &Given,
    ledger: u64,
    entries: u64,
    rows: u64,
    last: TxId,
) -> Result<SegmentMove, NoMemory>
    ensures { (from : Stage) → IfOk result (IsMove given.now from
        (rule.completes given.now ledger entries rows last)) }
{
    let end = given.end(ledger, entries, rows, last);
    let request = given.complete(alloc, &end)?;
    Ok(asks(Stage::Completing { end }, request))
}

/// The last entry of a closed ledger is asked for.
fn fetches(
    alloc: Global,
    given: &Given,
    ledger: u64,
    node: &Located,
    last: u64,
) -> Result<SegmentMove, NoMemory>
    ensures { (from : Stage) (m : LedgerNode)
        → IsNodeAt (rule.ledger_args given.now ledger) m node.now
        → IfOk result (IsMove given.now from (
          rule.FetchingEnd ledger m (Fetching last),
          tells (asks_entry (rule.end_subject given.now ledger m) last),
        )) }
{
    let mut reader = LedgerReader::start(alloc, given.tag, ledger, node.meta.q, node.ensemble)?;
    let letters = reader.ask(last)?;
    let stage = Stage::FetchingEnd {
        ledger,
        entries: node.meta.count,
        reader,
    };
    Ok(Move::Goes(stage, tells(letters)))
}

/// The ledger is closed: an empty one has no rows, and its last transaction id is that of the stream before; of another the
/// last entry is asked for.
fn after_closed(
    alloc: Global,
    given: &Given,
    ledger: u64,
    node: &Located,
) -> Result<SegmentMove, NoMemory>
    ensures { (from : Stage) (m : LedgerNode)
        → IsNodeAt (rule.ledger_args given.now ledger) m node.now
        → IfOk result (IsMove given.now from
        (rule.after_closed given.now ledger m m.count)) }
{
    let count = node.meta.count;
    if count == 0 {
        completes(alloc, given, ledger, 0, 0, given.last())
    } else {
        fetches(alloc, given, ledger, node, count - 1)
    }
}

/// The recovery of the ledger goes on, or ends the task with its refusal.
fn goes_on(ledger: u64, recovery: Recovery, turn: Turn<u64>) -> SegmentMove
    ensures { (x : rule.SegmentArgs) (from : Stage) (s : RecoveryStage) (next : Next ℕ)
        → IsRecovering x ledger s ledger recovery → turn ≡ turn_of next
        → IsMove x from (within (rule.RecoveringLedger ledger) rule.SegmentDone
        (λ n. (rule.SegmentDone, Wait)) (s, next)) result }
{
    let stage = Stage::RecoveringLedger { ledger, recovery };
    match turn {
        Turn::Wait => Move::Goes(stage, Turn::Wait),
        Turn::Ask(request) => Move::Goes(stage, Turn::Ask(request)),
        Turn::Tell(letters) => Move::Goes(stage, Turn::Tell(letters)),
        Turn::Done(_) => Move::Goes(Stage::Over, Turn::Wait),
        Turn::Refused(refusal) => refused(Stage::Over, refusal),
    }
}

/// The segment's node is asked for once more, since that of its ledger is gone.
fn checks(alloc: Global, given: &Given, ledger: u64) -> Result<SegmentMove, NoMemory>
    ensures { (from : Stage) → IfOk result (IsMove given.now from
        (rule.CheckingSegment ledger, Ask (rule.gets given.now))) }
{
    let request = given.get(alloc)?;
    Ok(asks(Stage::CheckingSegment { ledger }, request))
}

/// The recovery of the ledger has come to this: where the ledger is closed, its last entry is next; where its node is gone,
/// the segment's node is asked for once more.
fn after_ledger(
    alloc: Global,
    given: &Given,
    ledger: u64,
    recovery: Recovery,
    turn: Turn<u64>,
) -> Result<SegmentMove, NoMemory>
    ensures { (from : Stage) (s : RecoveryStage) (next : Next ℕ)
        → IsRecovering given.now ledger s ledger recovery → turn ≡ turn_of next
        → IfOk result (IsMove given.now from (rule.after_ledger given.now ledger (s, next))) }
{
    match recovery.ending() {
        Ending::Open => Ok(goes_on(ledger, recovery, turn)),
        Ending::Closed(node) => after_closed(alloc, given, ledger, &node),
        Ending::Gone => checks(alloc, given, ledger),
    }
}

/// The recovery of a segment's ledger begins.
fn begins(alloc: Global, given: &Given, ledger: u64) -> Result<SegmentMove, NoMemory>
    requires { ledger ≤ ten_nines }
    ensures { (from : Stage) → IfOk result (IsMove given.now from
        (rule.after_ledger given.now ledger
        (recovery_first (rule.ledger_args given.now ledger)))) }
{
    let (recovery, turn) = given.recovery(alloc, ledger)?;
    after_ledger(alloc, given, ledger, recovery, turn)
}

/// The bytes of the segment's node were read: the recovery of the ledger that it names begins.
#[tactic(auto, unfolding(dl_rules_stream::specs::SegmentRecoveries::segment_answers))]
fn after_bytes(
    alloc: Global,
    given: &Given,
    bytes: &[u8],
    version: u64,
) -> Result<SegmentMove, NoMemory>
    ensures { (from : Stage) → IfOk result (IsMove given.now from (rule.segment_answers given.now
        rule.GettingSegment (answer.One (Bytes bytes.now version)))) }
{
    let _ = version;
    match given.read(alloc, bytes)? {
        Ok(meta) => begins(alloc, given, ledger_of(&meta)),
        Err(refusal) => Ok(refused(Stage::Over, refusal)),
    }
}

/// The reading of the segment's node failed: another client has completed the segment, or there is no way on.
#[tactic(auto, using(crate::proofs::Failures::failed_getting), unfolding(dl_rules_stream::specs::SegmentRecoveries::segment_answers))]
fn after_failed_getting(
    alloc: Global,
    given: &Given,
    place: u16,
    why: Why,
) -> Result<SegmentMove, NoMemory>
    ensures { (from : Stage) → IfOk result (IsMove given.now from
        (rule.segment_answers given.now rule.GettingSegment (answer.Failed place why))) }
{
    match why {
        Why::NoNode => Ok(done(Stage::Over, Recovered::Again)),
        _ => gives_up(alloc, Stage::Over, given.get(alloc)?, place, why),
    }
}

/// What the task does while it waits for the segment's node.
#[tactic(auto, unfolding(dl_rules_stream::specs::SegmentRecoveries::segment_hears, dl_rules_stream::specs::SegmentRecoveries::segment_answers))]
fn at_getting(alloc: Global, given: &Given, heard: &Heard) -> Result<SegmentMove, NoMemory>
    ensures { IfOk result (IsMove given.now kept.GettingSegment
        (rule.segment_hears given.now rule.GettingSegment heard.now)) }
{
    let Heard::Reply(answer) = heard else {
        return Ok(Move::Stays);
    };
    match answer {
        MetaAnswer::One(OneAnswer::Bytes { bytes, version }) => {
            after_bytes(alloc, given, bytes.as_slice(), *version)
        }
        MetaAnswer::Failed { place, why } => after_failed_getting(alloc, given, *place, *why),
        _ => Ok(Move::Stays),
    }
}

/// What the task does while the ledger is recovered. A copy of the recovery hears, so that want of memory later leaves the one
/// that is kept as it is.
#[tactic(auto, unfolding(dl_rules_stream::specs::SegmentRecoveries::segment_hears, dl_rules_stream::specs::SegmentRecoveries::segment_answers))]
fn at_recovering(
    alloc: Global,
    given: &Given,
    ledger: u64,
    recovery: &Recovery,
    heard: &Heard,
) -> Result<SegmentMove, NoMemory>
    ensures { (from : Stage) (s : RecoveryStage)
        → IsRecovering given.now ledger s ledger recovery.now
        → IfOk result (IsMove given.now from
        (rule.segment_hears given.now (rule.RecoveringLedger ledger s) heard.now)) }
{
    let mut recovery = recovery.clone()?;
    let turn = recovery.hear(heard)?;
    after_ledger(alloc, given, ledger, recovery, turn)
}

/// The last entry of the ledger has come: it tells the segment's end.
fn after_entry(
    alloc: Global,
    given: &Given,
    ledger: u64,
    entries: u64,
    bytes: &[u8],
) -> Result<SegmentMove, NoMemory>
    ensures { (from : Stage) → IfOk result (IsMove given.now from
        (rule.completes given.now ledger entries (rule.end_in (entry_at bytes.now)).0
        (rule.end_in (entry_at bytes.now)).1)) }
{
    let (rows, last) = end_in(alloc, bytes)?;
    completes(alloc, given, ledger, entries, rows, last)
}

/// The task goes on waiting for the last entry.
fn reads_on(ledger: u64, entries: u64, reader: LedgerReader) -> SegmentMove
    ensures { (x : rule.SegmentArgs) (from : Stage) (m : LedgerNode) (s : ReaderStage)
        → IsFetching x ledger m s ledger entries reader
        → IsMove x from (rule.FetchingEnd ledger m s, Wait) result }
{
    let stage = Stage::FetchingEnd {
        ledger,
        entries,
        reader,
    };
    Move::Goes(stage, Turn::Wait)
}

/// A message of a bookie while the task waits for the last entry. A copy of the reader hears, so that want of memory later
/// leaves the one that is kept as it is.
fn after_message(
    alloc: Global,
    given: &Given,
    ledger: u64,
    entries: u64,
    reader: &LedgerReader,
    bookie: u8,
    msg: &Msg,
) -> Result<SegmentMove, NoMemory>
    ensures { (from : Stage) (m : LedgerNode) (s : ReaderStage)
        → IsFetching given.now ledger m s ledger entries reader.now
        → IfOk result (IsMove given.now from (rule.after_end given.now ledger m
        (hears (rule.end_subject given.now ledger m) s bookie msg.now))) }
{
    let mut reader = reader.clone()?;
    match reader.hear(bookie, msg)? {
        Got::Entry(bytes) => after_entry(alloc, given, ledger, entries, bytes.as_slice()),
        _ => Ok(reads_on(ledger, entries, reader)),
    }
}

/// What the task does while it waits for the last entry.
#[tactic(auto, unfolding(dl_rules_stream::specs::SegmentRecoveries::segment_hears, dl_rules_stream::specs::SegmentRecoveries::segment_answers))]
fn at_fetching(
    alloc: Global,
    given: &Given,
    ledger: u64,
    entries: u64,
    reader: &LedgerReader,
    heard: &Heard,
) -> Result<SegmentMove, NoMemory>
    ensures { (m : LedgerNode) (s : ReaderStage)
        → IsFetching given.now ledger m s ledger entries reader.now
        → IfOk result (IsMove given.now (kept.FetchingEnd ledger entries reader.now)
        (rule.segment_hears given.now (rule.FetchingEnd ledger m s) heard.now)) }
{
    match heard {
        Heard::From(bookie, msg) => {
            after_message(alloc, given, ledger, entries, reader, *bookie, msg)
        }
        Heard::Reply(_) => Ok(Move::Stays),
    }
}

/// The completion failed: another client has completed the segment, or there is no way on.
fn after_failed_completing(
    alloc: Global,
    given: &Given,
    end: &SegmentEnd,
    place: u16,
    why: Why,
) -> Result<SegmentMove, NoMemory>
    ensures { (from : Stage) → IfOk result (IsMove given.now from (rule.not_completed
        (completion_by given.now.stream given.now.member end.now) place why)) }
{
    if given.is_completed(place, why) {
        Ok(done(Stage::Over, Recovered::Closed(end.entries)))
    } else {
        gives_up(alloc, Stage::Over, given.complete(alloc, end)?, place, why)
    }
}

/// What the task does while it waits for the completion.
#[tactic(auto, unfolding(dl_rules_stream::specs::SegmentRecoveries::segment_hears, dl_rules_stream::specs::SegmentRecoveries::segment_answers))]
fn at_completing(
    alloc: Global,
    given: &Given,
    end: &SegmentEnd,
    heard: &Heard,
) -> Result<SegmentMove, NoMemory>
    ensures { let c = completion_by given.now.stream given.now.member end.now in
        IfOk result (IsMove given.now (kept.Completing end.now)
        (rule.segment_hears given.now (rule.Completing c) heard.now)) }
{
    let Heard::Reply(answer) = heard else {
        return Ok(Move::Stays);
    };
    match answer {
        MetaAnswer::Failed { place, why } => {
            after_failed_completing(alloc, given, end, *place, *why)
        }
        _ => Ok(done(Stage::Over, Recovered::Closed(end.entries))),
    }
}

/// The segment's node was asked for once more, and is answered: where it is gone too, another client has completed the
/// segment; else the ledger that it names is missing.
#[tactic(auto, unfolding(dl_rules_stream::specs::SegmentRecoveries::segment_answers))]
fn after_check(alloc: Global, ledger: u64, answer: &MetaAnswer) -> Result<SegmentMove, NoMemory>
    ensures { (x : rule.SegmentArgs) (from : Stage) → IfOk result (IsMove x from
        (rule.segment_answers x (rule.CheckingSegment ledger) answer.now)) }
{
    if let MetaAnswer::Failed {
        why: Why::NoNode,
        ..
    } = answer
    {
        return Ok(done(Stage::Over, Recovered::Again));
    }
    let path = ledger_path(alloc, ledger)?;
    Ok(refused(Stage::Over, Refusal::GaveUp { path }))
}

/// What the task does while it waits for the segment's node once more.
#[tactic(auto, unfolding(dl_rules_stream::specs::SegmentRecoveries::segment_hears))]
fn at_checking(alloc: Global, ledger: u64, heard: &Heard) -> Result<SegmentMove, NoMemory>
    ensures { (x : rule.SegmentArgs) → IfOk result (IsMove x (kept.CheckingSegment ledger)
        (rule.segment_hears x (rule.CheckingSegment ledger) heard.now)) }
{
    match heard {
        Heard::Reply(answer) => after_check(alloc, ledger, answer),
        Heard::From(..) => Ok(Move::Stays),
    }
}

/// What the task does at what it hears.
#[tactic(auto, unfolding(dl_rules_stream::specs::SegmentRecoveries::segment_hears, dl_rules_stream::specs::SegmentRecoveries::segment_answers))]
pub(crate) fn after_heard(
    alloc: Global,
    given: &Given,
    stage: &Stage,
    heard: &Heard,
) -> Result<SegmentMove, NoMemory>
    ensures { (s : rule.SegmentStage) → StageStands given.now s stage.now
        → IfOk result (IsMove given.now stage.now
        (rule.segment_hears given.now s heard.now)) }
{
    match stage {
        Stage::GettingSegment => at_getting(alloc, given, heard),
        Stage::RecoveringLedger { ledger, recovery } => {
            at_recovering(alloc, given, *ledger, recovery, heard)
        }
        Stage::FetchingEnd {
            ledger,
            entries,
            reader,
        } => at_fetching(alloc, given, *ledger, *entries, reader, heard),
        Stage::Completing { end } => at_completing(alloc, given, end, heard),
        Stage::CheckingSegment { ledger } => at_checking(alloc, *ledger, heard),
        Stage::Over => Ok(Move::Stays),
    }
}
