//! What the opening of a stream does at what it hears, stage by stage.

ghost use Rattle.std.specs.Prelude.{◌≡◌, ℕ, List, IfOk, Some};
ghost use Rattle.dl_msg.specs.declared.turn.Turn.TheVariants as answer;
ghost use Rattle.dl_rules_stream.specs.Allocations as allocating;
ghost use Rattle.dl_rules_stream.specs.Allocations.{allocation_hears};
ghost use Rattle.dl_rules_stream.specs.Listings.{last_segment};
ghost use Rattle.dl_rules_stream.specs.Locks as taking;
ghost use Rattle.dl_rules_stream.specs.Locks.{lock_hears};
ghost use Rattle.dl_rules_stream.specs.Looks as looks;
ghost use Rattle.dl_rules_stream.specs.Opens as rule;
ghost use Rattle.dl_rules_stream.specs.Orders.{Next, Ask, Done, Refused, by_reply, no_way_on};
ghost use Rattle.dl_rules_stream.specs.Requests.{StartSegment};
ghost use Rattle.dl_rules_stream.specs.SegmentRecoveries as part;
ghost use Rattle.dl_requests.specs.Beginnings.{beginning_by};
ghost use Rattle.dl_requests.specs.Turns.{turn_of, next_by};
ghost use Rattle.dl_requests.specs.Turns as moves;
ghost use Rattle.dl_alloc.specs.Facts.{AllocationFacts};
ghost use Rattle.dl_alloc.specs.Standing as standing;
ghost use Rattle.dl_lock.specs.Facts.{LockFacts};
ghost use Rattle.dl_lock.specs.Standing as locking;
ghost use Rattle.dl_segrecover.specs.Facts.{SegmentFacts};
ghost use Rattle.dl_segrecover.specs.Standing as recovering;
ghost use Rattle.dl_open.specs.declared.open_stage.OpenStage.{OpenStage};
ghost use Rattle.dl_open.specs.declared.open_stage.OpenStage.TheVariants as kept;
ghost use Rattle.dl_open.specs.declared.open_step.OpenStep.TheVariants as to;
ghost use Rattle.dl_look.specs.Looking.{looked_of};
ghost use Rattle.dl_open.specs.Segments.{segment_args};
ghost use Rattle.dl_open.specs.Opening.{args_of, closed_at, closed_by, next_of, IsAllocating, IsRecovering, IsStep, StageStands};

use crate::given::Given;
use crate::new_log::new_log;
use crate::new_writer::NewWriter;
use crate::next_segment::NextSegment;
use crate::open_stage::OpenStage;
use crate::open_step::OpenStep;
use crate::parts::first_turn;
use crate::versions::{alloc_version_in, maxseq_version_in};
use dl_alloc::allocation::Allocation;
use dl_alloc::stage::Stage as AllocationStage;
use dl_formats::paths::maxseq_path;
use dl_lock::lock::Lock;
use dl_lock::stage::Stage as LockStage;
use dl_look::look::{LookAnswer, after_look, in_progress};
use dl_look::looked::Looked;
use dl_msg::heard::Heard;
use dl_msg::turn::Turn;
use dl_requests::beginnings::{SegmentStart, start_segment};
use dl_requests::moves::Move;
use dl_requests::refusals::no_way_on;
use dl_segrecover::recovered::Recovered;
use dl_segrecover::segment_recovery::SegmentRecovery;
use dl_segrecover::stage::Stage as SegmentStage;
use dl_types::dlsn::Dlsn;
use dl_types::memory::NoMemory;
use dl_types::meta_answer::MetaAnswer;
use dl_types::one_answer::OneAnswer;
use dl_types::path::Path;
use dl_types::refusal::Refusal;
use dl_types::why::Why;
use std::alloc::Global;

/// The greatest number of a segment, which has ten digits.
const LAST_SEGMENT: u64 = 9_999_999_999;

/// The order is refused.
fn refused(refusal: Refusal) -> OpenStep
    ensures { result ≡ to.Goes kept.Over (answer.Refused refusal) }
{
    OpenStep::Goes(OpenStage::Over, Turn::Refused(refusal))
}

/// The stream is looked at.
fn looks(alloc: Global, given: &Given, member: &Path) -> Result<OpenStep, NoMemory>
    ensures { (from : OpenStage) → IfOk result (IsStep (args_of given.now) from
        (rule.looks (args_of given.now) member.now)) }
{
    let request = given.look(alloc)?;
    let member = member.share()?;
    Ok(OpenStep::Goes(OpenStage::Looking { member }, Turn::Ask(request)))
}

/// The lock has come to this turn: once it is taken, the stream is looked at.
fn lock_goes_on(
    alloc: Global,
    given: &Given,
    stage: LockStage,
    turn: Turn<Path>,
) -> Result<OpenStep, NoMemory>
    ensures { (l : LockFacts) (s : taking.LockStage) (next : Next (List ℕ))
        → locking.StandsAt given.now.stream s (locking.with_stage l stage) → turn ≡ turn_of next
        → IfOk result (IsStep (args_of given.now) (kept.Locking l)
        (rule.lock_goes (args_of given.now) (s, next))) }
{
    match turn {
        Turn::Wait => Ok(OpenStep::Locks(stage, Turn::Wait)),
        Turn::Ask(request) => Ok(OpenStep::Locks(stage, Turn::Ask(request))),
        Turn::Tell(letters) => Ok(OpenStep::Locks(stage, Turn::Tell(letters))),
        Turn::Done(member) => looks(alloc, given, &member),
        Turn::Refused(refusal) => Ok(refused(refusal)),
    }
}

/// What the order does while it takes the lock.
fn at_locking(
    alloc: Global,
    given: &Given,
    lock: &Lock,
    heard: &Heard,
) -> Result<OpenStep, NoMemory>
    ensures { (s : taking.LockStage) → locking.StandsAt given.now.stream s lock.now
        → IfOk result (IsStep (args_of given.now) (kept.Locking lock.now)
        (rule.lock_goes (args_of given.now) (lock_hears given.now.stream s heard.now))) }
{
    let step = lock.step(heard)?;
    match step {
        Move::Stays => Ok(OpenStep::Stays),
        Move::Goes(stage, turn) => lock_goes_on(alloc, given, stage, turn),
    }
}

/// The recovery of a segment in progress begins.
fn recovers(
    alloc: Global,
    given: &Given,
    member: &Path,
    looked: &Looked,
    segment: u64,
) -> Result<OpenStep, NoMemory>
    ensures { let args = segment_args given.now (Some member.now) looked.now segment in
        (from : OpenStage) → IfOk result (IsStep (args_of given.now) from
        (rule.segment_goes (args_of given.now) member.now args (part.segment_first args))) }
{
    let (recovery, turn) = given.recovery(alloc, Some(member), looked, segment)?;
    let stage = OpenStage::Recovering {
        member: member.share()?,
        segment,
        recovery,
    };
    Ok(OpenStep::Goes(stage, first_turn(turn)))
}

/// The allocation of a ledger begins, unless the next segment has more than ten digits.
#[tactic(auto, using(crate::proofs::Allocating::refuses_next))]
fn allocates(
    alloc: Global,
    given: &Given,
    member: &Path,
    looked: &Looked,
) -> Result<OpenStep, NoMemory>
    ensures { (from : OpenStage) (l : looks.Looked) → looked.now ≡ looked_of l
        → IfOk result (IsStep (args_of given.now) from
        (rule.allocates (args_of given.now) member.now l)) }
{
    if looked.maxseq.segment >= LAST_SEGMENT {
        let path = maxseq_path(alloc, &given.stream)?;
        return Ok(refused(Refusal::GaveUp { path }));
    }
    let (allocation, turn) = Allocation::start(
        alloc,
        given.tag,
        &given.stream,
        member,
        looked.old,
        looked.alloc_version,
        given.conf,
    )?;
    let next = NextSegment {
        segment: looked.maxseq.segment + 1,
        last: looked.maxseq.last,
        version: looked.version,
    };
    let stage = OpenStage::Allocating {
        member: member.share()?,
        next,
        allocation,
    };
    Ok(OpenStep::Goes(stage, first_turn(turn)))
}

/// A look was told: a last segment that is in progress is recovered first.
fn after_told(
    alloc: Global,
    given: &Given,
    member: &Path,
    looked: &Looked,
) -> Result<OpenStep, NoMemory>
    ensures { (from : OpenStage) (l : looks.Looked) → looked.now ≡ looked_of l
        → IfOk result (IsStep (args_of given.now) from
        (rule.after_look (args_of given.now) member.now l (last_segment l.segments))) }
{
    match in_progress(looked.last) {
        Some(segment) => recovers(alloc, given, member, looked, segment),
        None => allocates(alloc, given, member, looked),
    }
}

/// The answer to a look.
fn after_looking(
    alloc: Global,
    given: &Given,
    member: &Path,
    answer: &MetaAnswer,
) -> Result<OpenStep, NoMemory>
    ensures { IfOk result (IsStep (args_of given.now) (kept.Looking member.now)
        (rule.look_goes (args_of given.now) member.now
        (looks.look_answers given.now.stream looks.Looking answer.now))) }
{
    let told = after_look(alloc, &given.stream, answer)?;
    match told {
        LookAnswer::Stays => Ok(OpenStep::Stays),
        LookAnswer::Told(looked) => after_told(alloc, given, member, &looked),
        LookAnswer::Refused(refusal) => Ok(refused(refusal)),
    }
}

/// What the order does while it waits for a look.
#[tactic(auto, unfolding(dl_rules_stream::specs::Opens::open_hears))]
fn at_looking(
    alloc: Global,
    given: &Given,
    member: &Path,
    heard: &Heard,
) -> Result<OpenStep, NoMemory>
    ensures { IfOk result (IsStep (args_of given.now) (kept.Looking member.now)
        (rule.open_hears (args_of given.now) (rule.LookingFor member.now looks.Looking)
        heard.now)) }
{
    match heard {
        Heard::Reply(answer) => after_looking(alloc, given, member, answer),
        Heard::From(..) => Ok(OpenStep::Stays),
    }
}

/// The recovery of the segment has come to this turn: where it is over, the stream is looked at again.
fn recovery_goes_on(
    alloc: Global,
    given: &Given,
    member: &Path,
    stage: SegmentStage,
    turn: Turn<Recovered>,
) -> Result<OpenStep, NoMemory>
    ensures { (args : part.SegmentArgs) (k : ℕ) (recovery : SegmentFacts)
        (s : part.SegmentStage) (next : Next part.Recovered) → k ≡ args.segment
        → recovering.StandsAt args s (recovering.with_stage recovery stage)
        → turn ≡ turn_of (next_by recovering.recovered_of next)
        → IfOk result (IsStep (args_of given.now) (kept.Recovering member.now k recovery)
        (rule.segment_goes (args_of given.now) member.now args (s, next))) }
{
    match turn {
        Turn::Wait => Ok(OpenStep::Recovers(stage, Turn::Wait)),
        Turn::Ask(request) => Ok(OpenStep::Recovers(stage, Turn::Ask(request))),
        Turn::Tell(letters) => Ok(OpenStep::Recovers(stage, Turn::Tell(letters))),
        Turn::Done(recovered) => {
            let _ = recovered;
            looks(alloc, given, member)
        }
        Turn::Refused(refusal) => Ok(refused(refusal)),
    }
}

/// The recovery of the segment makes this move.
fn after_move(
    alloc: Global,
    given: &Given,
    member: &Path,
    step: Move<SegmentStage, Recovered>,
) -> Result<OpenStep, NoMemory>
    ensures { (args : part.SegmentArgs) (k : ℕ) (recovery : SegmentFacts)
        (to : part.SegmentStage × Next part.Recovered) → k ≡ args.segment → recovery.given ≡ args
        → recovering.IsMove args recovery.stage to step
        → IfOk result (IsStep (args_of given.now) (kept.Recovering member.now k recovery)
        (rule.segment_goes (args_of given.now) member.now args to)) }
{
    match step {
        Move::Stays => Ok(OpenStep::Stays),
        Move::Goes(stage, turn) => recovery_goes_on(alloc, given, member, stage, turn),
    }
}

/// Where this segment is complete by what its recovery comes to, the place below which all its rows stand.
fn closed_at(segment: u64, recovered: Recovered) -> Option<Dlsn>
    ensures { result ≡ closed_at segment recovered }
{
    match recovered {
        Recovered::Closed(entry) => Some(Dlsn {
            segment,
            entry,
            slot: 0,
        }),
        Recovered::Again => None,
    }
}

/// The same by a turn of its recovery.
fn closed_by(segment: u64, turn: &Turn<Recovered>) -> Option<Dlsn>
    ensures { result ≡ closed_by segment turn.now }
{
    match turn {
        Turn::Done(recovered) => closed_at(segment, *recovered),
        _ => None,
    }
}

/// The same by a move of its recovery.
fn closed_in(segment: u64, step: &Move<SegmentStage, Recovered>) -> Option<Dlsn>
    ensures { result ≡ closed_by segment (moves.turn_in step.now) }
{
    match step {
        Move::Stays => None,
        Move::Goes(_, turn) => closed_by(segment, turn),
    }
}

/// What the order does while a segment is recovered, and where that completes the segment, the place below which all its rows
/// stand.
fn at_recovering(
    alloc: Global,
    given: &Given,
    member: &Path,
    segment: u64,
    recovery: &SegmentRecovery,
    heard: &Heard,
) -> Result<(OpenStep, Option<Dlsn>), NoMemory>
    ensures step { IfOk result (λ m. (args : part.SegmentArgs) (s : part.SegmentStage)
        → IsRecovering member.now args s member.now segment recovery.now
        → IsStep (args_of given.now) (kept.Recovering member.now segment recovery.now)
        (rule.segment_goes (args_of given.now) member.now args
        (part.segment_hears args s heard.now)) m.0) }
    ensures recovered { IfOk result (λ m. (args : part.SegmentArgs) (s : part.SegmentStage)
        → IsRecovering member.now args s member.now segment recovery.now
        → m.1 ≡ part.recovered_by args (part.segment_hears args s heard.now)) }
{
    let step = recovery.step(heard)?;
    let recovered = closed_in(segment, &step);
    let next = after_move(alloc, given, member, step)?;
    Ok((next, recovered))
}

/// The next segment starts with this ledger, where the node `alloc` has this version.
fn starts(
    alloc: Global,
    given: &Given,
    member: &Path,
    next: &NextSegment,
    ledger: u64,
    alloc_version: u64,
) -> Result<OpenStep, NoMemory>
    ensures { (from : OpenStage) (l : looks.Looked) → next.now ≡ next_of l
        → IfOk result (IsStep (args_of given.now) from (
          rule.Starting (rule.beginning_of (args_of given.now) member.now l ledger
              alloc_version),
          Ask (StartSegment (rule.beginning_of (args_of given.now) member.now l ledger
              alloc_version)),
        )) }
{
    let start = SegmentStart {
        segment: next.segment,
        ledger,
        last: next.last,
        version: next.version,
        alloc_version,
    };
    let request = start_segment(alloc, &given.stream, member, &start)?;
    let stage = OpenStage::Starting {
        member: member.share()?,
        start,
    };
    Ok(OpenStep::Goes(stage, Turn::Ask(request)))
}

/// The allocation has come to this turn: once there is a ledger, the next segment starts.
fn allocation_goes_on(
    alloc: Global,
    given: &Given,
    member: &Path,
    next: &NextSegment,
    alloc_version: u64,
    stage: AllocationStage,
    turn: Turn<u64>,
) -> Result<OpenStep, NoMemory>
    ensures { (l : looks.Looked) (a : AllocationFacts) (s : allocating.AllocationStage)
        (to : Next ℕ) → next.now ≡ next_of l
        → standing.StandsAt (rule.allocation_args (args_of given.now) member.now l) s
        (standing.with_stage a stage) → turn ≡ turn_of to
        → IfOk result (IsStep (args_of given.now) (kept.Allocating member.now next.now a)
        (rule.allocation_goes (args_of given.now) member.now l alloc_version (s, to))) }
{
    match turn {
        Turn::Wait => Ok(OpenStep::Allocates(stage, Turn::Wait)),
        Turn::Ask(request) => Ok(OpenStep::Allocates(stage, Turn::Ask(request))),
        Turn::Tell(letters) => Ok(OpenStep::Allocates(stage, Turn::Tell(letters))),
        Turn::Done(ledger) => starts(alloc, given, member, next, ledger, alloc_version),
        Turn::Refused(refusal) => Ok(refused(refusal)),
    }
}

/// What the order does while a ledger is allocated.
fn at_allocating(
    alloc: Global,
    given: &Given,
    member: &Path,
    next: &NextSegment,
    allocation: &Allocation,
    heard: &Heard,
) -> Result<OpenStep, NoMemory>
    ensures { (l : looks.Looked) (s : allocating.AllocationStage)
        → IsAllocating (args_of given.now) member.now l s member.now next.now allocation.now
        → IfOk result (IsStep (args_of given.now)
        (kept.Allocating member.now next.now allocation.now)
        (rule.allocation_goes (args_of given.now) member.now l
        (rule.alloc_version_in heard.now)
        (allocation_hears (rule.allocation_args (args_of given.now) member.now l) s
        heard.now))) }
{
    let step = allocation.step(heard)?;
    match step {
        Move::Stays => Ok(OpenStep::Stays),
        Move::Goes(stage, turn) => allocation_goes_on(
            alloc,
            given,
            member,
            next,
            alloc_version_in(heard),
            stage,
            turn,
        ),
    }
}

/// The next segment has started: the order is done with its writer.
fn after_start(
    alloc: Global,
    given: &Given,
    member: &Path,
    start: &SegmentStart,
    answers: &[OneAnswer],
) -> Result<OpenStep, NoMemory>
    ensures { let b = beginning_by given.now.stream member.now start.now in
        (from : OpenStage) → IfOk result (IsStep (args_of given.now) from
        (rule.OpenDone, Done (rule.opened_writer b (rule.maxseq_version_in answers.now)))) }
{
    let SegmentStart {
        segment,
        ledger,
        last,
        ..
    } = *start;
    let writer = NewWriter {
        member: member.share()?,
        segment,
        ledger,
        last,
        version: maxseq_version_in(answers),
        log: new_log(alloc, segment, last, ledger, given.conf)?,
    };
    Ok(OpenStep::Goes(OpenStage::Over, Turn::Done(writer)))
}

/// The start of the next segment failed, and there is no way on.
fn after_failed_start(
    alloc: Global,
    given: &Given,
    member: &Path,
    start: &SegmentStart,
    place: u16,
    why: Why,
) -> Result<OpenStep, NoMemory>
    ensures { let b = beginning_by given.now.stream member.now start.now in
        (from : OpenStage) → IfOk result (IsStep (args_of given.now) from
        (rule.OpenDone, Refused (no_way_on (StartSegment b) place why))) }
{
    let request = start_segment(alloc, &given.stream, member, start)?;
    let refusal = no_way_on(alloc, request, place, why)?;
    Ok(refused(refusal))
}

/// The answer to the start of the next segment.
fn after_starting(
    alloc: Global,
    given: &Given,
    member: &Path,
    start: &SegmentStart,
    answer: &MetaAnswer,
) -> Result<OpenStep, NoMemory>
    ensures { let b = beginning_by given.now.stream member.now start.now in
        IfOk result (IsStep (args_of given.now) (kept.Starting member.now start.now)
        (rule.start_answers b answer.now)) }
{
    match answer {
        MetaAnswer::Failed { place, why } => {
            after_failed_start(alloc, given, member, start, *place, *why)
        }
        MetaAnswer::Many(answers) => {
            after_start(alloc, given, member, start, answers.as_slice())
        }
        MetaAnswer::One(_) => Ok(OpenStep::Stays),
    }
}

/// What the order does while it waits for the start of the next segment.
fn at_starting(
    alloc: Global,
    given: &Given,
    member: &Path,
    start: &SegmentStart,
    heard: &Heard,
) -> Result<OpenStep, NoMemory>
    ensures { let b = beginning_by given.now.stream member.now start.now in
        IfOk result (IsStep (args_of given.now) (kept.Starting member.now start.now)
        (by_reply (rule.Starting b) (rule.start_answers b) heard.now)) }
{
    match heard {
        Heard::Reply(answer) => after_starting(alloc, given, member, start, answer),
        Heard::From(..) => Ok(OpenStep::Stays),
    }
}

/// What the order does at what it hears, and where that completes a segment, the place below which all rows of it stand.
#[tactic(auto, unfolding(dl_rules_stream::specs::Opens::open_hears))]
pub(crate) fn after_heard(
    alloc: Global,
    given: &Given,
    stage: &OpenStage,
    heard: &Heard,
) -> Result<(OpenStep, Option<Dlsn>), NoMemory>
    ensures step { IfOk result (λ m. (s : rule.OpenStage)
        → StageStands (args_of given.now) s stage.now
        → IsStep (args_of given.now) stage.now (rule.open_hears (args_of given.now) s heard.now)
        m.0) }
    ensures recovered { IfOk result (λ m. (s : rule.OpenStage)
        → StageStands (args_of given.now) s stage.now
        → m.1 ≡ rule.open_recovers s heard.now) }
{
    match stage {
        OpenStage::Locking { lock } => Ok((at_locking(alloc, given, lock, heard)?, None)),
        OpenStage::Looking { member } => Ok((at_looking(alloc, given, member, heard)?, None)),
        OpenStage::Recovering {
            member,
            segment,
            recovery,
        } => at_recovering(alloc, given, member, *segment, recovery, heard),
        OpenStage::Allocating {
            member,
            next,
            allocation,
        } => Ok((
            at_allocating(alloc, given, member, next, allocation, heard)?,
            None,
        )),
        OpenStage::Starting { member, start } => Ok((
            at_starting(alloc, given, member, start, heard)?,
            None,
        )),
        OpenStage::Over => Ok((OpenStep::Stays, None)),
    }
}
