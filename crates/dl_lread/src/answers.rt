//! What the reader does at an answer, stage by stage.

ghost use Rattle.std.specs.Prelude.{◌≡◌, ℕ, List, ◌∷◌, IfOk};
ghost use Rattle.dl_rules_ledger.specs.Readers.{ReaderStage, Counting, Fetching, after_count, hears, readable};
ghost use Rattle.dl_subject.specs.Sets.{IsTallyOf};
ghost use Rattle.dl_lread.specs.declared.stage.Stage.TheVariants as kept;
ghost use Rattle.dl_lread.specs.Standing.{StageStands, got_of, stage_or};

use crate::got::Got;
use crate::stage::Stage;
use dl_msg::msg::Msg;
use dl_quorum::place_set::PlaceSet;
use dl_subject::subject::Subject;
use dl_types::entry_bytes::EntryBytes;
use dl_types::memory::NoMemory;

/// One more bookie has told a count: a cover has answered, or the reader counts on.
fn after_count(
    subject: &Subject,
    answered: PlaceSet,
    greatest: u64,
    bookie: u8,
    count: u64,
) -> Stage
    ensures { (answers : List (ℕ × ℕ)) → IsTallyOf subject.now answers answered greatest
        → StageStands subject.now
        (after_count ((bookie, count) ∷ answers) (readable subject.now ((bookie, count) ∷ answers))) result }
{
    let answered = subject.with(answered, bookie);
    let greatest = greatest.max(count);
    if subject.covers(answered) {
        Stage::Counted {
            count: subject.known_count(greatest),
        }
    } else {
        Stage::Counting { answered, greatest }
    }
}

/// A message while it counts.
#[tactic(auto, unfolding(dl_rules_ledger::specs::Readers::hears))]
fn at_counting(
    subject: &Subject,
    answered: PlaceSet,
    greatest: u64,
    bookie: u8,
    msg: &Msg,
) -> Option<Stage>
    ensures { (answers : List (ℕ × ℕ)) → IsTallyOf subject.now answers answered greatest
        → StageStands subject.now (hears subject.now (Counting answers) bookie msg.now)
        (stage_or (kept.Counting answered greatest) result) }
{
    match msg {
        Msg::LacIs {
            tag,
            ledger,
            count,
            ..
        } => {
            if subject.is_about(bookie, *tag, *ledger) {
                Some(after_count(subject, answered, greatest, bookie, *count))
            } else {
                None
            }
        }
        _ => None,
    }
}

/// A message while it waits for an entry.
#[tactic(auto, unfolding(dl_rules_ledger::specs::Readers::hears))]
fn at_fetching(
    subject: &Subject,
    entry: u64,
    bookie: u8,
    msg: &Msg,
) -> Result<Option<Stage>, NoMemory>
    ensures { IfOk result (λ next. StageStands subject.now
        (hears subject.now (Fetching entry) bookie msg.now) (stage_or (kept.Fetching entry) next)) }
{
    match msg {
        Msg::EntryIs {
            tag,
            ledger,
            entry: named,
            bytes,
        } => {
            if subject.is_about_entry(entry, bookie, *tag, *ledger, *named) {
                let bytes = EntryBytes::from_bytes(bytes.clone()?);
                Ok(Some(Stage::Fetched { bytes }))
            } else {
                Ok(None)
            }
        }
        _ => Ok(None),
    }
}

/// The stage after a message of a bookie, where the reader doesn't stay.
#[tactic(auto, unfolding(dl_rules_ledger::specs::Readers::hears))]
pub(crate) fn after_msg(
    subject: &Subject,
    stage: &Stage,
    bookie: u8,
    msg: &Msg,
) -> Result<Option<Stage>, NoMemory>
    ensures { IfOk result (λ next. (s : ReaderStage) → StageStands subject.now s stage.now
        → StageStands subject.now (hears subject.now s bookie msg.now) (stage_or stage.now next)) }
{
    match stage {
        Stage::Counting { answered, greatest } => {
            Ok(at_counting(subject, *answered, *greatest, bookie, msg))
        }
        Stage::Fetching { entry } => at_fetching(subject, *entry, bookie, msg),
        _ => Ok(None),
    }
}

/// What the reader has got at a stage.
pub(crate) fn got_at(stage: &Stage) -> Result<Got, NoMemory>
    ensures { IfOk result (λ got. got ≡ got_of stage.now) }
{
    match stage {
        Stage::Counted { count } => Ok(Got::Lac(*count)),
        Stage::Fetched { bytes } => Ok(Got::Entry(bytes.share()?)),
        _ => Ok(Got::NotYet),
    }
}
