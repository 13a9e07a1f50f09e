//! The search for the end of a fenced ledger, phase by phase (BookKeeper, ledger recovery: fence, then read and copy forward).

ghost use Rattle.std.specs.Prelude.{◌≡◌, ℕ, List, [], ◌∷◌, ◌+◌, IfOk};
ghost use Rattle.dl_rules_ledger.specs.Subjects as about;
ghost use Rattle.dl_rules_ledger.specs.Recoveries as rule;
ghost use Rattle.dl_subject.specs.Sets.{IsTallyOf};
ghost use Rattle.dl_lrecover.specs.declared.phase.Phase.TheVariants as kept;
ghost use Rattle.dl_lrecover.specs.Finding.{PhaseStands, StepStands, IsHeard};

use crate::phase::{Phase, Step};
use bytes::Bytes;
use dl_msg::letters::Letters;
use dl_msg::msg::Msg;
use dl_quorum::place_set::PlaceSet;
use dl_subject::subject::Subject;
use dl_types::memory::NoMemory;
use std::alloc::Global;

/// It is at this phase, and tells nothing.
fn waits(alloc: Global, phase: Phase) -> Step
    ensures { (x : about.Subject) (p : rule.Phase) → PhaseStands x p phase
        → StepStands x (p, []) result }
{
    Step::Goes(phase, Letters::new(alloc))
}

/// The bookies of the ensemble are asked to fence the ledger.
pub(crate) fn fences(alloc: Global, subject: &Subject) -> Result<Step, NoMemory>
    ensures { IfOk result (StepStands subject.now (rule.fences subject.now)) }
{
    let msg = Msg::AskLac {
        tag: subject.tag(),
        ledger: subject.ledger(),
        fence: true,
    };
    let told = subject.tell_ensemble(alloc, &msg)?;
    let phase = Phase::Fencing {
        answered: subject.nobody(),
        greatest: 0,
    };
    Ok(Step::Goes(phase, told))
}

/// An entry is asked of its write set.
fn reads(alloc: Global, subject: &Subject, start: u64, entry: u64) -> Result<Step, NoMemory>
    ensures { IfOk result (StepStands subject.now (rule.reads subject.now start entry)) }
{
    let msg = Msg::AskEntry {
        tag: subject.tag(),
        ledger: subject.ledger(),
        entry,
    };
    let told = subject.tell_write_set(alloc, entry, &msg)?;
    let phase = Phase::Reading {
        start,
        entry,
        denials: subject.nobody(),
    };
    Ok(Step::Goes(phase, told))
}

/// One more bookie has answered with the fenced bit: a cover has, or it waits for more.
fn after_answer(
    alloc: Global,
    subject: &Subject,
    answered: PlaceSet,
    greatest: u64,
) -> Result<Step, NoMemory>
    ensures { (answers : List (ℕ × ℕ)) → IsTallyOf subject.now answers answered greatest
        → IfOk result (StepStands subject.now (rule.after_answer subject.now answers)) }
{
    if subject.covers(answered) {
        let start = subject.known_count(greatest);
        reads(alloc, subject, start, start)
    } else {
        Ok(waits(alloc, Phase::Fencing { answered, greatest }))
    }
}

/// A message while it fences.
#[tactic(auto, unfolding(dl_rules_ledger::specs::Recoveries::recovers))]
fn at_fencing(
    alloc: Global,
    subject: &Subject,
    answered: PlaceSet,
    greatest: u64,
    bookie: u8,
    msg: &Msg,
) -> Result<Step, NoMemory>
    ensures { (answers : List (ℕ × ℕ)) → IsTallyOf subject.now answers answered greatest
        → IfOk result (StepStands subject.now
        (rule.recovers subject.now (rule.Fencing answers) bookie msg.now)) }
{
    match msg {
        Msg::LacIs {
            tag,
            ledger,
            fenced,
            count,
        } => {
            if *fenced && subject.is_about(bookie, *tag, *ledger) {
                let answered = subject.with(answered, bookie);
                after_answer(alloc, subject, answered, greatest.max(*count))
            } else {
                Ok(waits(alloc, Phase::Fencing { answered, greatest }))
            }
        }
        _ => Ok(waits(alloc, Phase::Fencing { answered, greatest })),
    }
}

/// One more bookie has denied the entry: it is the end, or it waits for more.
fn after_denial(alloc: Global, subject: &Subject, start: u64, entry: u64, denials: PlaceSet) -> Step
    ensures { (bookies : List ℕ) → IsHeard subject.now bookies denials
        → StepStands subject.now (rule.after_denial subject.now start entry bookies) result }
{
    if subject.blocks(entry, denials) {
        Step::Ended(entry)
    } else {
        let phase = Phase::Reading {
            start,
            entry,
            denials,
        };
        waits(alloc, phase)
    }
}

/// The entry is found: it is copied to its write set, and copies carry the start.
fn after_entry(
    alloc: Global,
    subject: &Subject,
    start: u64,
    entry: u64,
    bytes: &Bytes,
) -> Result<Step, NoMemory>
    ensures { IfOk result (StepStands subject.now
        (rule.after_entry subject.now start entry bytes.now)) }
{
    let msg = Msg::Copy {
        tag: subject.tag(),
        ledger: subject.ledger(),
        entry,
        count: start,
        bytes: bytes.clone()?,
    };
    let told = subject.tell_write_set(alloc, entry, &msg)?;
    let phase = Phase::Copying {
        start,
        entry,
        copied: subject.nobody(),
    };
    Ok(Step::Goes(phase, told))
}

/// A message while it reads an entry.
#[tactic(auto, unfolding(dl_rules_ledger::specs::Recoveries::recovers))]
fn at_reading(
    alloc: Global,
    subject: &Subject,
    start: u64,
    entry: u64,
    denials: PlaceSet,
    bookie: u8,
    msg: &Msg,
) -> Result<Step, NoMemory>
    ensures { (bookies : List ℕ) → IsHeard subject.now bookies denials
        → IfOk result (StepStands subject.now
        (rule.recovers subject.now (rule.Reading start entry bookies) bookie msg.now)) }
{
    let stays = Phase::Reading {
        start,
        entry,
        denials,
    };
    match msg {
        Msg::NoEntry {
            tag,
            ledger,
            entry: named,
            fenced,
        } => {
            if *fenced && subject.is_about_entry(entry, bookie, *tag, *ledger, *named) {
                let denials = subject.with(denials, bookie);
                Ok(after_denial(alloc, subject, start, entry, denials))
            } else {
                Ok(waits(alloc, stays))
            }
        }
        Msg::EntryIs {
            tag,
            ledger,
            entry: named,
            bytes,
        } => {
            if subject.is_about_entry(entry, bookie, *tag, *ledger, *named) {
                after_entry(alloc, subject, start, entry, bytes)
            } else {
                Ok(waits(alloc, stays))
            }
        }
        _ => Ok(waits(alloc, stays)),
    }
}

/// The entry behind another one is read, where a number is left for it.
fn reads_next(alloc: Global, subject: &Subject, start: u64, entry: u64) -> Result<Step, NoMemory>
    ensures { IfOk result (StepStands subject.now (rule.reads subject.now start (entry + 1))) }
{
    match entry.checked_add(1) {
        Some(next) => reads(alloc, subject, start, next),
        None => Ok(Step::Exhausted),
    }
}

/// One more bookie has copied the entry: an ack quorum has, and the next one is read; or it waits for more.
fn after_copy(
    alloc: Global,
    subject: &Subject,
    start: u64,
    entry: u64,
    copied: PlaceSet,
) -> Result<Step, NoMemory>
    ensures { (bookies : List ℕ) → IsHeard subject.now bookies copied
        → IfOk result (StepStands subject.now
        (rule.after_copy subject.now start entry bookies)) }
{
    if subject.acks(entry, copied) {
        reads_next(alloc, subject, start, entry)
    } else {
        let phase = Phase::Copying {
            start,
            entry,
            copied,
        };
        Ok(waits(alloc, phase))
    }
}

/// A message while it copies an entry.
#[tactic(auto, unfolding(dl_rules_ledger::specs::Recoveries::recovers))]
fn at_copying(
    alloc: Global,
    subject: &Subject,
    start: u64,
    entry: u64,
    copied: PlaceSet,
    bookie: u8,
    msg: &Msg,
) -> Result<Step, NoMemory>
    ensures { (bookies : List ℕ) → IsHeard subject.now bookies copied
        → IfOk result (StepStands subject.now
        (rule.recovers subject.now (rule.Copying start entry bookies) bookie msg.now)) }
{
    let stays = Phase::Copying {
        start,
        entry,
        copied,
    };
    match msg {
        Msg::CopyOk {
            tag,
            ledger,
            entry: named,
        } => {
            if subject.is_about_entry(entry, bookie, *tag, *ledger, *named) {
                let copied = subject.with(copied, bookie);
                after_copy(alloc, subject, start, entry, copied)
            } else {
                Ok(waits(alloc, stays))
            }
        }
        _ => Ok(waits(alloc, stays)),
    }
}

/// What the search does at a message of a bookie.
#[tactic(auto, unfolding(dl_rules_ledger::specs::Recoveries::recovers))]
pub(crate) fn after_msg(
    alloc: Global,
    subject: &Subject,
    phase: Phase,
    bookie: u8,
    msg: &Msg,
) -> Result<Step, NoMemory>
    ensures { (p : rule.Phase) → PhaseStands subject.now p phase
        → IfOk result (StepStands subject.now (rule.recovers subject.now p bookie msg.now)) }
{
    match phase {
        Phase::Fencing { answered, greatest } => {
            at_fencing(alloc, subject, answered, greatest, bookie, msg)
        }
        Phase::Reading {
            start,
            entry,
            denials,
        } => at_reading(alloc, subject, start, entry, denials, bookie, msg),
        Phase::Copying {
            start,
            entry,
            copied,
        } => at_copying(alloc, subject, start, entry, copied, bookie, msg),
    }
}
