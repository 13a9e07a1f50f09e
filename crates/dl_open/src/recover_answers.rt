//! What the recovery of a stream does at what it hears, stage by stage.

ghost use Rattle.std.specs.Prelude.{◌≡◌, IfOk, None};
ghost use Rattle.dl_rules_stream.specs.Listings.{last_segment};
ghost use Rattle.dl_rules_stream.specs.Looks as looks;
ghost use Rattle.dl_rules_stream.specs.Orders.{Next};
ghost use Rattle.dl_rules_stream.specs.Recovers as rule;
ghost use Rattle.dl_rules_stream.specs.SegmentRecoveries as part;
ghost use Rattle.dl_requests.specs.Turns.{turn_of, next_by};
ghost use Rattle.dl_segrecover.specs.Facts.{SegmentFacts};
ghost use Rattle.dl_segrecover.specs.Standing.{StandsAt, recovered_of, with_stage};
ghost use Rattle.dl_open.specs.declared.recover_stage.RecoverStage.{RecoverStage};
ghost use Rattle.dl_open.specs.declared.recover_stage.RecoverStage.TheVariants as kept;
ghost use Rattle.dl_look.specs.Looking.{looked_of};
ghost use Rattle.dl_open.specs.Segments.{segment_args};
ghost use Rattle.dl_open.specs.Recovering.{args_of, look_goes, IsRecovering, IsStep, StageStands};

use crate::found::Found;
use crate::given::Given;
use crate::parts::first_turn;
use crate::recover_stage::RecoverStage;
use crate::recover_step::RecoverStep;
use dl_look::look::{LookAnswer, after_look, in_progress};
use dl_look::looked::Looked;
use dl_msg::heard::Heard;
use dl_msg::turn::Turn;
use dl_requests::moves::Move;
use dl_segrecover::recovered::Recovered;
use dl_segrecover::segment_recovery::SegmentRecovery;
use dl_segrecover::stage::Stage;
use dl_types::dlsn::Dlsn;
use dl_types::memory::NoMemory;
use dl_types::meta_answer::MetaAnswer;
use std::alloc::Global;

/// The stream is looked at.
fn looks(alloc: Global, given: &Given) -> Result<RecoverStep, NoMemory>
    ensures { (from : RecoverStage) → IfOk result (IsStep from
        (rule.looks (args_of given.now))) }
{
    let request = given.look(alloc)?;
    Ok(RecoverStep::Goes(RecoverStage::Looking, Turn::Ask(request)))
}

/// The recovery of a segment begins.
fn recovers(
    alloc: Global,
    given: &Given,
    looked: &Looked,
    segment: u64,
) -> Result<RecoverStep, NoMemory>
    ensures { let args = segment_args given.now None looked.now segment in
        (from : RecoverStage) → IfOk result (IsStep from
        (rule.segment_goes (args_of given.now) args (part.segment_first args))) }
{
    let (recovery, turn) = given.recovery(alloc, None, looked, segment)?;
    let stage = RecoverStage::Recovering { segment, recovery };
    Ok(RecoverStep::Goes(stage, first_turn(turn)))
}

/// A look was told: a last segment that is in progress is recovered.
fn after_told(alloc: Global, given: &Given, looked: &Looked) -> Result<RecoverStep, NoMemory>
    ensures { (from : RecoverStage) (l : looks.Looked) → looked.now ≡ looked_of l
        → IfOk result (IsStep from
        (rule.after_look (args_of given.now) l (last_segment l.segments))) }
{
    match in_progress(looked.last) {
        Some(segment) => recovers(alloc, given, looked, segment),
        None => Ok(RecoverStep::Goes(RecoverStage::Over, Turn::Done(Found::Whole))),
    }
}

/// The answer to a look.
fn after_looking(alloc: Global, given: &Given, answer: &MetaAnswer) -> Result<RecoverStep, NoMemory>
    ensures { IfOk result (IsStep kept.Looking (look_goes (args_of given.now)
        (looks.look_answers given.now.stream looks.Looking answer.now))) }
{
    let told = after_look(alloc, &given.stream, answer)?;
    match told {
        LookAnswer::Stays => Ok(RecoverStep::Stays),
        LookAnswer::Told(looked) => after_told(alloc, given, &looked),
        LookAnswer::Refused(refusal) => Ok(RecoverStep::Goes(
            RecoverStage::Over,
            Turn::Refused(refusal),
        )),
    }
}

/// What the order does while it waits for a look.
#[tactic(auto, unfolding(dl_rules_stream::specs::Recovers::recover_hears))]
fn at_looking(alloc: Global, given: &Given, heard: &Heard) -> Result<RecoverStep, NoMemory>
    ensures { IfOk result (IsStep kept.Looking
        (rule.recover_hears (args_of given.now) (rule.LookingFor looks.Looking) heard.now)) }
{
    match heard {
        Heard::Reply(answer) => after_looking(alloc, given, answer),
        Heard::From(..) => Ok(RecoverStep::Stays),
    }
}

/// The recovery of the segment is over: the order is done, or looks at the stream again.
fn after_recovered(
    alloc: Global,
    given: &Given,
    segment: u64,
    recovered: Recovered,
) -> Result<RecoverStep, NoMemory>
    ensures { (from : RecoverStage) (args : part.SegmentArgs) (a : part.Recovered)
        → segment ≡ args.segment → recovered ≡ recovered_of a
        → IfOk result (IsStep from (rule.after_segment (args_of given.now) args a)) }
{
    match recovered {
        Recovered::Closed(entry) => {
            let end = Dlsn {
                segment,
                entry,
                slot: 0,
            };
            let turn = Turn::Done(Found::Completes(end));
            Ok(RecoverStep::Goes(RecoverStage::Over, turn))
        }
        Recovered::Again => looks(alloc, given),
    }
}

/// The recovery of the segment has come to this turn: where it is over, the order is done, or looks at the stream again.
fn goes_on(
    alloc: Global,
    given: &Given,
    segment: u64,
    stage: Stage,
    turn: Turn<Recovered>,
) -> Result<RecoverStep, NoMemory>
    ensures { (args : part.SegmentArgs) (recovery : SegmentFacts) (s : part.SegmentStage)
        (next : Next part.Recovered) → segment ≡ args.segment
        → StandsAt args s (with_stage recovery stage) → turn ≡ turn_of (next_by recovered_of next)
        → IfOk result (IsStep (kept.Recovering segment recovery)
        (rule.segment_goes (args_of given.now) args (s, next))) }
{
    match turn {
        Turn::Wait => Ok(RecoverStep::Recovers(stage, Turn::Wait)),
        Turn::Ask(request) => Ok(RecoverStep::Recovers(stage, Turn::Ask(request))),
        Turn::Tell(letters) => Ok(RecoverStep::Recovers(stage, Turn::Tell(letters))),
        Turn::Done(recovered) => after_recovered(alloc, given, segment, recovered),
        Turn::Refused(refusal) => Ok(RecoverStep::Goes(RecoverStage::Over, Turn::Refused(refusal))),
    }
}

/// What the order does while a segment is recovered.
fn at_recovering(
    alloc: Global,
    given: &Given,
    segment: u64,
    recovery: &SegmentRecovery,
    heard: &Heard,
) -> Result<RecoverStep, NoMemory>
    ensures { (args : part.SegmentArgs) (s : part.SegmentStage)
        → IsRecovering args s segment recovery.now
        → IfOk result (IsStep (kept.Recovering segment recovery.now)
        (rule.segment_goes (args_of given.now) args (part.segment_hears args s heard.now))) }
{
    let step = recovery.step(heard)?;
    match step {
        Move::Stays => Ok(RecoverStep::Stays),
        Move::Goes(stage, turn) => goes_on(alloc, given, segment, stage, turn),
    }
}

/// What the order does at what it hears.
#[tactic(auto, unfolding(dl_rules_stream::specs::Recovers::recover_hears))]
pub(crate) fn after_heard(
    alloc: Global,
    given: &Given,
    stage: &RecoverStage,
    heard: &Heard,
) -> Result<RecoverStep, NoMemory>
    ensures { (s : rule.RecoverStage) → StageStands s stage.now
        → IfOk result (IsStep stage.now
        (rule.recover_hears (args_of given.now) s heard.now)) }
{
    match stage {
        RecoverStage::Looking => at_looking(alloc, given, heard),
        RecoverStage::Recovering { segment, recovery } => {
            at_recovering(alloc, given, *segment, recovery, heard)
        }
        RecoverStage::Over => Ok(RecoverStep::Stays),
    }
}
