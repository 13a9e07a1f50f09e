//! What a recovery does at what it hears, stage by stage.

ghost use Rattle.std.specs.Prelude.{◌≡◌, ◌≢◌, ℕ, Option, IfOk};
ghost use Rattle.dl_types.specs.declared.why.Why.TheVariants as why;
ghost use Rattle.dl_types.specs.declared.meta_answer.MetaAnswer.TheVariants as answer;
ghost use Rattle.dl_rules_ledger.specs.Recoveries as search;
ghost use Rattle.dl_rules_stream.specs.Nodes.{LedgerNode};
ghost use Rattle.dl_rules_stream.specs.LedgerRecoveries as rule;
ghost use Rattle.dl_types.specs.declared.one_answer.OneAnswer.TheVariants.{Bytes, Version};
ghost use Rattle.dl_rules_stream.specs.Requests.{Request, op_of};
ghost use Rattle.dl_rules_stream.specs.Orders.{Refused, no_way_on};
ghost use Rattle.dl_lrecover.specs.Failures.{failed_setting};
ghost use Rattle.dl_lrecover.specs.Finding.{PhaseStands, StepStands};
ghost use Rattle.dl_lrecover.specs.Standing.{IsMove, IsNodeAt, IsNodeIn, StageStands, args_of};

use crate::finding::{after_msg, fences};
use crate::locating::{come_to, locate, subject_of};
use crate::phase::{Phase, Step};
use crate::stage::Stage;
use crate::target::{Located, Target};
use dl_formats::ledger::LedgerState;
use dl_formats::paths::ledger_path;
use dl_msg::heard::Heard;
use dl_msg::msg::Msg;
use dl_msg::turn::Turn;
use dl_requests::ledger_nodes::{close_ledger, get_ledger, ledger_in, mark_ledger};
use dl_requests::moves::tells;
use dl_requests::refusals::no_way_on;
use dl_types::memory::NoMemory;
use dl_types::meta_answer::MetaAnswer;
use dl_types::meta_op::MetaOp;
use dl_types::one_answer::OneAnswer;
use dl_types::refusal::Refusal;
use dl_types::why::Why;
use std::alloc::Global;

/// Where a recovery is then, and its turn.
type After = (Stage, Turn<u64>);

/// It has to give up the ledger's node.
fn gives_up(alloc: Global, target: &Target, stage: Stage) -> Result<After, NoMemory>
    ensures { (s : rule.RecoveryStage) → StageStands (args_of target.now) s stage
        → IfOk result (IsMove (args_of target.now) (rule.gives_up (args_of target.now) s)) }
{
    let path = ledger_path(alloc, target.ledger)?;
    Ok((stage, Turn::Refused(Refusal::GaveUp { path })))
}

/// The search has gone on: at its end the node is closed at the count that was found.
fn after_step(
    alloc: Global,
    target: &Target,
    node: &Located,
    version: u64,
    step: Step,
) -> Result<After, NoMemory>
    ensures { (m : LedgerNode) (move : search.Move)
        → IsNodeAt (args_of target.now) m node.now
        → StepStands (rule.subject_of (args_of target.now) m) move step
        → IfOk result (IsMove (args_of target.now)
        (rule.after_move (args_of target.now) m version move)) }
{
    let node = *node;
    match step {
        Step::Goes(phase, letters) => {
            let stage = Stage::Searching {
                node,
                version,
                phase,
            };
            Ok((stage, tells(letters)))
        }
        Step::Ended(count) => {
            let stage = Stage::Closing {
                node,
                version,
                count,
            };
            let request = close_ledger(alloc, target.ledger, node.meta.q, count, version)?;
            Ok((stage, Turn::Ask(request)))
        }
        Step::Exhausted => gives_up(alloc, target, Stage::WasRefused { node: Some(node) }),
    }
}

/// The node is marked at this version: the ledger is fenced.
fn after_mark(
    alloc: Global,
    target: &Target,
    node: &Located,
    version: u64,
) -> Result<After, NoMemory>
    ensures { (m : LedgerNode) → IsNodeAt (args_of target.now) m node.now
        → IfOk result (IsMove (args_of target.now)
        (rule.after_mark (args_of target.now) m version)) }
{
    let subject = subject_of(target, node);
    let step = fences(alloc, &subject)?;
    after_step(alloc, target, node, version, step)
}

/// The node was read at this version: it is marked, or the ledger is fenced, or it is closed.
fn after_node(
    alloc: Global,
    target: &Target,
    node: &Located,
    version: u64,
) -> Result<After, NoMemory>
    ensures { (m : LedgerNode) → IsNodeAt (args_of target.now) m node.now
        → IfOk result (IsMove (args_of target.now)
        (rule.after_node (args_of target.now) version m m.state)) }
{
    let meta = node.meta;
    match meta.state {
        LedgerState::Writing => {
            let request = mark_ledger(alloc, target.ledger, meta.q, version)?;
            let stage = Stage::Marking {
                node: *node,
                version,
            };
            Ok((stage, Turn::Ask(request)))
        }
        LedgerState::Recovering => after_mark(alloc, target, node, version),
        LedgerState::Closed => Ok((Stage::IsClosed { node: *node }, Turn::Done(meta.count))),
    }
}

/// The node is read again.
fn again(alloc: Global, target: &Target, node: &Located) -> Result<After, NoMemory>
    ensures { (m : LedgerNode) → IsNodeAt (args_of target.now) m node.now
        → IfOk result (IsMove (args_of target.now) (rule.again (args_of target.now) m)) }
{
    let request = get_ledger(alloc, target.ledger)?;
    Ok((Stage::GettingNode { node: Some(*node) }, Turn::Ask(request)))
}

/// It is refused by a failure of its request, from which there is no way on.
fn refused(
    alloc: Global,
    stage: Stage,
    request: MetaOp,
    place: u16,
    why: Why,
) -> Result<After, NoMemory>
    ensures { (x : rule.RecoveryArgs) (s : rule.RecoveryStage) (asked : Request)
        → StageStands x s stage → request ≡ op_of asked
        → IfOk result (IsMove x (s, Refused (no_way_on asked place why))) }
{
    let refusal = no_way_on(alloc, request, place, why)?;
    Ok((stage, Turn::Refused(refusal)))
}

/// The bytes of the node were read at this version.
#[tactic(auto, unfolding(dl_rules_stream::specs::LedgerRecoveries::recovery_answers))]
fn after_bytes(
    alloc: Global,
    target: &Target,
    node: Option<Located>,
    bytes: &[u8],
    version: u64,
) -> Result<After, NoMemory>
    ensures { (old : Option LedgerNode) → IsNodeIn (args_of target.now) old node
        → IfOk result (IsMove (args_of target.now) (rule.recovery_answers (args_of target.now)
        (rule.GettingNode old) (answer.One (Bytes bytes.now version)))) }
{
    match ledger_in(&target.conf, bytes) {
        Some(meta) => {
            let node = locate(target, meta);
            after_node(alloc, target, &node, version)
        }
        None => gives_up(alloc, target, Stage::WasRefused { node }),
    }
}

/// The reading of the node failed: the node is gone, or there is no way on.
#[tactic(auto, unfolding(dl_rules_stream::specs::LedgerRecoveries::recovery_answers))]
fn after_failed_getting(
    alloc: Global,
    target: &Target,
    node: Option<Located>,
    place: u16,
    why: Why,
) -> Result<After, NoMemory>
    ensures { (old : Option LedgerNode) → IsNodeIn (args_of target.now) old node
        → IfOk result (IsMove (args_of target.now) (rule.recovery_answers (args_of target.now)
        (rule.GettingNode old) (answer.Failed place why))) }
{
    match why {
        Why::NoNode => gives_up(alloc, target, Stage::IsGone { node }),
        _ => {
            let request = get_ledger(alloc, target.ledger)?;
            refused(alloc, Stage::WasRefused { node }, request, place, why)
        }
    }
}

/// The answer to the reading of the node.
#[tactic(auto, unfolding(dl_rules_stream::specs::LedgerRecoveries::recovery_answers))]
fn at_getting(
    alloc: Global,
    target: &Target,
    node: Option<Located>,
    answer: &MetaAnswer,
) -> Result<After, NoMemory>
    ensures { (old : Option LedgerNode) → IsNodeIn (args_of target.now) old node
        → IfOk result (IsMove (args_of target.now) (rule.recovery_answers (args_of target.now)
        (rule.GettingNode old) answer.now)) }
{
    match answer {
        MetaAnswer::One(OneAnswer::Bytes { bytes, version }) => {
            after_bytes(alloc, target, node, bytes.as_slice(), *version)
        }
        MetaAnswer::Failed { place, why } => {
            after_failed_getting(alloc, target, node, *place, *why)
        }
        _ => Ok((Stage::GettingNode { node }, Turn::Wait)),
    }
}

/// The setting of the node failed: the node is gone, or has moved on and is read again, or there is no way on.
fn after_failed_setting(
    alloc: Global,
    target: &Target,
    node: &Located,
    request: MetaOp,
    place: u16,
    why: Why,
) -> Result<After, NoMemory>
    ensures { (m : LedgerNode) (set : Request) → IsNodeAt (args_of target.now) m node.now
        → request ≡ op_of set
        → IfOk result (IsMove (args_of target.now)
        (failed_setting (args_of target.now) m set place why)) }
{
    match why {
        Why::NoNode => gives_up(alloc, target, Stage::IsGone { node: Some(*node) }),
        Why::BadVersion(_) => again(alloc, target, node),
        _ => refused(
            alloc,
            Stage::WasRefused { node: Some(*node) },
            request,
            place,
            why,
        ),
    }
}

/// The node is marked, and has this version now: the ledger is fenced.
fn after_marked(alloc: Global, target: &Target, node: &Located, now: u64) -> Result<After, NoMemory>
    ensures { (m : LedgerNode) (version : ℕ) → IsNodeAt (args_of target.now) m node.now
        → IfOk result (IsMove (args_of target.now) (rule.recovery_answers (args_of target.now)
        (rule.Marking m version) (answer.One (Version now)))) }
{
    let node = come_to(node, LedgerState::Recovering, 0);
    after_mark(alloc, target, &node, now)
}

/// The answer to the mark on the node.
#[tactic(auto, unfolding(dl_rules_stream::specs::LedgerRecoveries::recovery_answers), using(crate::proofs::Failures::failed_marking))]
fn at_marking(
    alloc: Global,
    target: &Target,
    node: &Located,
    version: u64,
    answer: &MetaAnswer,
) -> Result<After, NoMemory>
    ensures { (m : LedgerNode) → IsNodeAt (args_of target.now) m node.now
        → IfOk result (IsMove (args_of target.now) (rule.recovery_answers (args_of target.now)
        (rule.Marking m version) answer.now)) }
{
    match answer {
        MetaAnswer::One(OneAnswer::Version(now)) => { after_marked(alloc, target, node, *now) }
        MetaAnswer::Failed { place, why } => {
            let request = mark_ledger(alloc, target.ledger, node.meta.q, version)?;
            after_failed_setting(alloc, target, node, request, *place, *why)
        }
        _ => {
            let node = *node;
            Ok((Stage::Marking { node, version }, Turn::Wait))
        }
    }
}

/// The node is closed at the count.
fn after_closed(node: &Located, count: u64) -> After
    ensures { (x : rule.RecoveryArgs) (m : LedgerNode) (version now : ℕ) → IsNodeAt x m node.now
        → IsMove x (rule.recovery_answers x
        (rule.Closing m version count) (answer.One (Version now))) result }
{
    let node = come_to(node, LedgerState::Closed, count);
    (Stage::IsClosed { node }, Turn::Done(count))
}

/// The answer to the closing of the node.
#[tactic(auto, unfolding(dl_rules_stream::specs::LedgerRecoveries::recovery_answers), using(crate::proofs::Failures::failed_closing))]
fn at_closing(
    alloc: Global,
    target: &Target,
    node: &Located,
    version: u64,
    count: u64,
    answer: &MetaAnswer,
) -> Result<After, NoMemory>
    ensures { (m : LedgerNode) → IsNodeAt (args_of target.now) m node.now
        → IfOk result (IsMove (args_of target.now) (rule.recovery_answers (args_of target.now)
        (rule.Closing m version count) answer.now)) }
{
    match answer {
        MetaAnswer::One(OneAnswer::Version(_)) => { Ok(after_closed(node, count)) }
        MetaAnswer::Failed { place, why } => {
            let request = close_ledger(alloc, target.ledger, node.meta.q, count, version)?;
            after_failed_setting(alloc, target, node, request, *place, *why)
        }
        _ => {
            let stage = Stage::Closing {
                node: *node,
                version,
                count,
            };
            Ok((stage, Turn::Wait))
        }
    }
}

/// What a recovery does at the reply to its request.
#[tactic(auto, unfolding(dl_rules_stream::specs::LedgerRecoveries::recovery_answers))]
fn after_reply(
    alloc: Global,
    target: &Target,
    stage: Stage,
    answer: &MetaAnswer,
) -> Result<After, NoMemory>
    ensures { (s : rule.RecoveryStage) → StageStands (args_of target.now) s stage
        → IfOk result (IsMove (args_of target.now)
        (rule.recovery_answers (args_of target.now) s answer.now)) }
{
    match stage {
        Stage::GettingNode { node } => at_getting(alloc, target, node, answer),
        Stage::Marking { node, version } => at_marking(alloc, target, &node, version, answer),
        Stage::Closing {
            node,
            version,
            count,
        } => at_closing(alloc, target, &node, version, count, answer),
        _ => Ok((stage, Turn::Wait)),
    }
}

/// What a recovery does at a message of a bookie while it searches.
fn at_searching(
    alloc: Global,
    target: &Target,
    node: &Located,
    version: u64,
    phase: Phase,
    bookie: u8,
    msg: &Msg,
) -> Result<After, NoMemory>
    ensures { (m : LedgerNode) (p : search.Phase)
        → IsNodeAt (args_of target.now) m node.now
        → PhaseStands (rule.subject_of (args_of target.now) m) p phase
        → IfOk result (IsMove (args_of target.now) (rule.recovery_told (args_of target.now)
        (rule.Searching m version p) bookie msg.now)) }
{
    let subject = subject_of(target, node);
    let step = after_msg(alloc, &subject, phase, bookie, msg)?;
    after_step(alloc, target, node, version, step)
}

/// What a recovery does at a message of a bookie.
fn after_message(
    alloc: Global,
    target: &Target,
    stage: Stage,
    bookie: u8,
    msg: &Msg,
) -> Result<After, NoMemory>
    ensures { (s : rule.RecoveryStage) → StageStands (args_of target.now) s stage
        → IfOk result (IsMove (args_of target.now)
        (rule.recovery_told (args_of target.now) s bookie msg.now)) }
{
    match stage {
        Stage::Searching {
            node,
            version,
            phase,
        } => at_searching(alloc, target, &node, version, phase, bookie, msg),
        _ => Ok((stage, Turn::Wait)),
    }
}

/// What a recovery does at what it hears.
#[tactic(auto, unfolding(dl_rules_stream::specs::LedgerRecoveries::recovery_hears))]
pub(crate) fn after_heard(
    alloc: Global,
    target: &Target,
    stage: Stage,
    heard: &Heard,
) -> Result<After, NoMemory>
    ensures { (s : rule.RecoveryStage) → StageStands (args_of target.now) s stage
        → IfOk result (IsMove (args_of target.now)
        (rule.recovery_hears (args_of target.now) s heard.now)) }
{
    match heard {
        Heard::Reply(answer) => after_reply(alloc, target, stage, answer),
        Heard::From(bookie, msg) => after_message(alloc, target, stage, *bookie, msg),
    }
}
