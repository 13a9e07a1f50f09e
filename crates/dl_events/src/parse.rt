ghost use Rattle.std.specs.Prelude.{◌≡◌, ℕ, IfOk, IfErr};
ghost use Rattle.dl_text.specs.Readers.{Gives, whole_at};
ghost use Rattle.dl_transcript.specs.declared.event.Event.{Event};
ghost use Rattle.dl_transcript.specs.Lines.{print_event};
ghost use Rattle.dl_transcript.specs.Ranges.{IsLine};
ghost use Rattle.dl_transcript.specs.Reading.{fields_at, event_at, line_at, parsed_event};
ghost use Rattle.dl_events.specs.Faults.{IsBadAt, ReadsAs, Parses};

use crate::field::u32_of;
use crate::form;
use dl_text::stop::Stop;
use dl_text::word::word_at;
use dl_transcript::event::Event;
use dl_transcript::verb::Verb;
use dl_types::line_fault::LineFault;
use std::alloc::Global;

/// The first words of events.
const VERBS: [Verb; 24] = [
    Verb::Joined,
    Verb::Expired,
    Verb::Created,
    Verb::Removed,
    Verb::Released,
    Verb::Whole,
    Verb::Writer,
    Verb::Took,
    Verb::Sent,
    Verb::Grow,
    Verb::Ack,
    Verb::Committed,
    Verb::Closed,
    Verb::Recovered,
    Verb::Point,
    Verb::Truncated,
    Verb::Purged,
    Verb::Opened,
    Verb::Reading,
    Verb::End,
    Verb::Rows,
    Verb::Refused,
    Verb::Mail,
    Verb::Nothing,
];

/// An event behind its first word.
fn fields_of(alloc: Global, verb: Verb, bytes: &[u8]) -> Result<(Event, &[u8]), Stop>
    ensures { Gives (λ x. (x.0, x.1.now)) result (fields_at verb bytes.now) }
{
    match verb {
        Verb::Joined => form::joined_of(bytes),
        Verb::Expired => form::expired_of(bytes),
        Verb::Created => form::created_of(alloc, bytes),
        Verb::Removed => form::removed_of(alloc, bytes),
        Verb::Released => form::released_of(alloc, bytes),
        Verb::Whole => form::whole_of(alloc, bytes),
        Verb::Writer => form::writer_of(alloc, bytes),
        Verb::Took => form::took_of(alloc, bytes),
        Verb::Sent => form::sent_of(bytes),
        Verb::Grow => form::grow_of(alloc, bytes),
        Verb::Ack => form::ack_of(bytes),
        Verb::Committed => form::committed_of(alloc, bytes),
        Verb::Closed => form::closed_of(alloc, bytes),
        Verb::Recovered => form::recovered_of(alloc, bytes),
        Verb::Point => form::point_of(alloc, bytes),
        Verb::Truncated => form::truncated_of(alloc, bytes),
        Verb::Purged => form::purged_of(alloc, bytes),
        Verb::Opened => form::opened_of(alloc, bytes),
        Verb::Reading => form::reading_of(alloc, bytes),
        Verb::End => form::end_of(alloc, bytes),
        Verb::Rows => form::rows_of(alloc, bytes),
        Verb::Refused => form::refused_of(alloc, bytes),
        Verb::Mail => form::mail_of(bytes),
        Verb::Nothing => Ok((Event::Nothing, bytes)),
    }
}

/// An event.
fn event_of(alloc: Global, bytes: &[u8]) -> Result<(Event, &[u8]), Stop>
    ensures { Gives (λ x. (x.0, x.1.now)) result (event_at bytes.now) }
{
    let (verb, rest) = word_at(&VERBS, bytes)?;
    fields_of(alloc, verb, rest)
}

/// A line at the front of a text.
#[tactic(auto, unfolding(dl_transcript::specs::Reading::line_at))]
fn line_of(alloc: Global, bytes: &[u8]) -> Result<((u32, Event), &[u8]), Stop>
    ensures { Gives (λ x. (x.0, x.1.now)) result (line_at bytes.now) }
{
    let (line, rest) = u32_of(b' ', bytes)?;
    let (event, rest) = event_of(alloc, rest)?;
    Ok(((line, event), rest))
}

/// A whole line.
fn whole_of(alloc: Global, bytes: &[u8]) -> Result<(u32, Event), Stop>
    ensures { Gives (λ x. x) result (whole_at line_at bytes.now) }
{
    let (read, rest) = line_of(alloc, bytes)?;
    if rest.is_empty() {
        Ok(read)
    } else {
        Err(Stop::Left(rest.len()))
    }
}

/// The event that a line of a transcript says, with the number of its line of the schedule. The line is given with its
/// line feed. `BadLine` names the column where no line goes on, and `NoMemory` says nothing of the line.
pub fn parse_event(alloc: Global, bytes: &[u8]) -> Result<(u32, Event), LineFault>
    // What is read is a number and an event with their words in their ranges, and spelt so.
    ensures found { IfOk result (λ x. IsLine x × (bytes.now ≡ print_event x.0 x.1)) }
    // What is spelt so is read as them, unless memory runs out.
    ensures only { (line : ℕ) (e : Event) → IsLine (line, e) → bytes.now ≡ print_event line e
        → ReadsAs (line, e) result }
    // Up to the column some line goes on as this one does, and none goes on further.
    ensures column { IfErr result (IsBadAt bytes.now) }
    ensures exact { Parses result (parsed_event bytes.now) }
{
    match whole_of(alloc, bytes) {
        Ok(read) => Ok(read),
        Err(Stop::NoMemory) => Err(LineFault::NoMemory),
        Err(Stop::Left(left)) => Err(LineFault::BadLine {
            column: (bytes.len() - left) as u64 + 1,
        }),
    }
}
