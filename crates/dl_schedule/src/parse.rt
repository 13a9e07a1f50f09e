ghost use Rattle.std.specs.Prelude.{◌≡◌, IfOk, IfErr};
ghost use Rattle.dl_text.specs.Readers.{Gives};
ghost use Rattle.dl_schedule.specs.declared.step.Step.{Step};
ghost use Rattle.dl_schedule.specs.StepLines.{step_line, IsStep};
ghost use Rattle.dl_schedule.specs.StepReading.{other_words_at, step_at, line_at, parsed_line};
ghost use Rattle.dl_schedule.specs.Faults.{IsBadAt, ReadsAs, Parses};

use crate::form;
use crate::step::Step;
use crate::words::FirstWord;
use dl_text::stop::Stop;
use dl_text::word::word_at;
use dl_types::line_fault::LineFault;
use std::alloc::Global;

/// A line behind its first word.
fn other_words_of(alloc: Global, word: FirstWord, bytes: &[u8]) -> Result<(Step, &[u8]), Stop>
    ensures { Gives (λ x. (x.0, x.1.now)) result (other_words_at word bytes.now) }
{
    match word {
        FirstWord::Setup => form::setup_of(bytes),
        FirstWord::Join => form::join_of(bytes),
        FirstWord::Crash => form::crash_of(bytes),
        FirstWord::Expire => form::expire_of(bytes),
        FirstWord::Create => form::create_of(alloc, bytes),
        FirstWord::Remove => form::remove_of(alloc, bytes),
        FirstWord::Open => form::open_of(alloc, bytes),
        FirstWord::Recover => form::recover_of(alloc, bytes),
        FirstWord::Purge => form::purge_of(alloc, bytes),
        FirstWord::Append => form::append_of(alloc, bytes),
        FirstWord::Set => form::set_of(alloc, bytes),
        FirstWord::Flush => form::flush_of(bytes),
        FirstWord::Commit => form::commit_of(bytes),
        FirstWord::Close => form::close_of(bytes),
        FirstWord::Seek => form::seek_of(alloc, bytes),
        FirstWord::Read => form::read_of(bytes),
        FirstWord::Truncate => form::truncate_of(alloc, bytes),
        FirstWord::Deliver => form::deliver_of(bytes),
        FirstWord::Sync => form::sync_of(bytes),
        FirstWord::Lose => form::lose_of(bytes),
        FirstWord::Stop => form::stop_of(bytes),
        FirstWord::StopMeta => form::stop_meta_of(bytes),
        FirstWord::Kill => form::kill_of(bytes),
        FirstWord::Up => form::up_of(bytes),
        FirstWord::Settle => Ok((Step::Settle, bytes)),
        FirstWord::Mail => Ok((Step::Mail, bytes)),
    }
}

/// A line at the front of a text.
fn step_of(alloc: Global, bytes: &[u8]) -> Result<(Step, &[u8]), Stop>
    ensures { Gives (λ x. (x.0, x.1.now)) result (step_at bytes.now) }
{
    let (word, rest) = word_at(&FirstWord::ALL, bytes)?;
    other_words_of(alloc, word, rest)
}

/// A whole line.
fn line_of(alloc: Global, line: &[u8]) -> Result<Step, Stop>
    ensures { Gives (λ x. x) result (line_at line.now) }
{
    let (step, rest) = step_of(alloc, line)?;
    if rest.is_empty() {
        Ok(step)
    } else {
        Err(Stop::Left(rest.len()))
    }
}

/// The step that a line of a schedule says. The line is given with its line feed. `BadLine` names the column where no line
/// goes on, and `NoMemory` says nothing of the line.
pub fn parse_line(alloc: Global, line: &[u8]) -> Result<Step, LineFault>
    // What is read is a step with its words in their ranges, and spelt so.
    ensures found { IfOk result (λ s. IsStep s × (line.now ≡ step_line s)) }
    // What is spelt so is read as that step, unless memory runs out.
    ensures only { (s : Step) → IsStep s → line.now ≡ step_line s → ReadsAs s result }
    // Up to the column some line goes on as this one does, and none goes on further.
    ensures column { IfErr result (IsBadAt IsStep line.now) }
    ensures exact { Parses result (parsed_line line.now) }
{
    match line_of(alloc, line) {
        Ok(step) => Ok(step),
        Err(Stop::NoMemory) => Err(LineFault::NoMemory),
        Err(Stop::Left(left)) => Err(LineFault::BadLine {
            column: (line.len() - left) as u64 + 1,
        }),
    }
}
