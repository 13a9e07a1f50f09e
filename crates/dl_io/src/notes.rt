ghost use Rattle.std.specs.Prelude.{◌≡◌, ◌++◌};
ghost use Rattle.dl_text.specs.Ends.{space, colon, line_feed};
ghost use Rattle.dl_text.specs.Numbers.{number};
ghost use Rattle.dl_text.specs.Fields.{bytes_field, place_field};
ghost use Rattle.dl_text.specs.Refusals.{refusal_rest, refusal_field};
ghost use Rattle.dl_io.specs.Notes.{Notes, note_line, note_text, word_number};
ghost use Rattle.dl_io.specs.Notes.{two_numbers, limit_past, refusal_note};
ghost use Rattle.dl_io.specs.Sinks.{Writes, WritesOut};

use crate::traits::{Sink, WriteFailed};
use crate::whole::write_all;
use dl_text::refusal_word::RefusalWord;
use dl_text::word::Word;
use dl_types::dlsn::Dlsn;
use dl_types::limit::LimitName;
use dl_types::refusal::Refusal;
use dl_types::status::Status;
use itoa::Buffer;

/// Gives one text after another.
fn write_both<K: Sink>(sink: &mut K, first: &[u8], second: &[u8]) -> Result<(), WriteFailed>
    ensures { Writes (K.view sink.old) (K.view sink.new) (first.now ++ second.now) result }
{
    write_all(sink, first)?;
    write_all(sink, second)
}

/// Gives bytes as they are, and the byte that ends them.
fn write_bytes<K: Sink>(sink: &mut K, end: u8, bytes: &[u8]) -> Result<(), WriteFailed>
    ensures { Writes (K.view sink.old) (K.view sink.new) (bytes_field end bytes.now) result }
{
    write_both(sink, bytes, &[end])
}

/// Gives a number, and the byte that ends it.
fn write_number<K: Sink>(sink: &mut K, end: u8, value: u64) -> Result<(), WriteFailed>
    ensures { Writes (K.view sink.old) (K.view sink.new) (number end value) result }
{
    let mut digits = Buffer::new();
    write_bytes(sink, end, digits.format(value).as_bytes())
}

/// Gives a text, and a number behind it.
fn write_word_number<K: Sink>(
    sink: &mut K,
    text: &[u8],
    end: u8,
    value: u64,
) -> Result<(), WriteFailed>
    ensures { Writes (K.view sink.old) (K.view sink.new) (word_number text.now end value) result }
{
    write_all(sink, text)?;
    write_number(sink, end, value)
}

/// Gives two texts with a number behind each, to the end of the line.
fn write_two_numbers<K: Sink>(
    sink: &mut K,
    first: &[u8],
    one: u64,
    second: &[u8],
    other: u64,
) -> Result<(), WriteFailed>
    ensures { Writes (K.view sink.old) (K.view sink.new)
        (two_numbers first.now one second.now other) result }
{
    write_word_number(sink, first, b' ', one)?;
    write_word_number(sink, second, b'\n', other)
}

/// Gives the last two numbers of a place.
fn write_entry_slot<K: Sink>(sink: &mut K, place: &Dlsn) -> Result<(), WriteFailed>
    ensures { Writes (K.view sink.old) (K.view sink.new)
        (number colon place.now.entry ++ number line_feed place.now.slot) result }
{
    write_number(sink, b':', place.entry)?;
    write_number(sink, b'\n', u64::from(place.slot))
}

/// Gives a place, to the end of the line.
fn write_place<K: Sink>(sink: &mut K, place: &Dlsn) -> Result<(), WriteFailed>
    ensures { Writes (K.view sink.old) (K.view sink.new) (place_field line_feed place.now) result }
{
    write_number(sink, b':', place.segment)?;
    write_entry_slot(sink, place)
}

/// Gives a path and a version behind it, to the end of the line.
fn write_moved<K: Sink>(sink: &mut K, path: &[u8], version: u64) -> Result<(), WriteFailed>
    ensures { Writes (K.view sink.old) (K.view sink.new)
        (bytes_field space path.now ++ number line_feed version) result }
{
    write_bytes(sink, b' ', path)?;
    write_number(sink, b'\n', version)
}

/// Gives two numbers, to the end of the line.
fn write_pair<K: Sink>(sink: &mut K, one: u64, other: u64) -> Result<(), WriteFailed>
    ensures { Writes (K.view sink.old) (K.view sink.new)
        (number space one ++ number line_feed other) result }
{
    write_number(sink, b' ', one)?;
    write_number(sink, b'\n', other)
}

/// Gives what a line says of a refusal behind its word.
fn write_rest<K: Sink>(sink: &mut K, refusal: &Refusal) -> Result<(), WriteFailed>
    ensures { Writes (K.view sink.old) (K.view sink.new) (refusal_rest refusal.now) result }
{
    match refusal {
        Refusal::Expired { session } => write_number(sink, b'\n', session.number()),
        Refusal::Held { member } => write_number(sink, b'\n', *member),
        Refusal::Fenced { bookie } => write_number(sink, b'\n', u64::from(bookie.number())),
        Refusal::Moved { path, version } => write_moved(sink, path.as_slice(), *version),
        Refusal::TxidBack { last, given } => write_pair(sink, last.number(), given.number()),
        Refusal::TooLong { length } => write_number(sink, b'\n', *length),
        Refusal::BeyondEnd { end } => write_place(sink, end),
        Refusal::Truncated { point } => write_place(sink, point),
        Refusal::NotEmpty { count } => write_number(sink, b'\n', *count),
        Refusal::Busy { line } => write_number(sink, b'\n', u64::from(*line)),
        Refusal::BadName { at } => write_number(sink, b'\n', u64::from(*at)),
        Refusal::GaveUp { path } => write_bytes(sink, b'\n', path.as_slice()),
        Refusal::NoStream | Refusal::StreamExists | Refusal::NoWriter | Refusal::WindowFull =>
            write_all(sink, b""),
    }
}

/// Gives what a line says of a refusal, to the end of the line.
fn write_refusal<K: Sink>(sink: &mut K, refusal: &Refusal) -> Result<(), WriteFailed>
    ensures { Writes (K.view sink.old) (K.view sink.new) (refusal_field refusal.now) result }
{
    write_all(sink, RefusalWord::of(refusal).text())?;
    write_rest(sink, refusal)
}

/// Gives what a note says of a refusal, to the end of the line.
fn write_refused<K: Sink>(sink: &mut K, refusal: &Refusal) -> Result<(), WriteFailed>
    ensures { Writes (K.view sink.old) (K.view sink.new) (refusal_note refusal.now) result }
{
    write_all(sink, b"refused: ")?;
    write_refusal(sink, refusal)
}

/// Gives what a note says of a limit, to the end of the line.
fn write_limit<K: Sink>(sink: &mut K, name: LimitName, number: u64) -> Result<(), WriteFailed>
    ensures { Writes (K.view sink.old) (K.view sink.new) (limit_past name number) result }
{
    write_both(sink, b"limit: ", name.text())?;
    write_word_number(sink, b" ", b'\n', number)
}

/// Gives what a note says of a status, to the end of the line.
fn write_text<K: Sink>(sink: &mut K, status: &Status) -> Result<(), WriteFailed>
    ensures { Writes (K.view sink.old) (K.view sink.new) (note_text status.now) result }
{
    match status {
        Status::Ok => write_all(sink, b""),
        Status::Usage { place } => write_word_number(sink, b"usage: word ", b'\n', *place),
        Status::BadSchedule { line, column } => {
            write_two_numbers(sink, b"bad schedule: line ", *line, b"column ", *column)
        }
        Status::ReadFault => write_all(sink, b"read fault\n"),
        Status::WriteFault => write_all(sink, b"write fault\n"),
        Status::DeviceFault { file } => {
            write_word_number(sink, b"device fault: ", b'\n', u64::from(*file))
        }
        Status::NotInitialised => write_all(sink, b"not initialised\n"),
        Status::Damaged { file, at } => {
            write_two_numbers(sink, b"damaged: ", u64::from(*file), b"at ", *at)
        }
        Status::NoStream => write_all(sink, b"no stream\n"),
        Status::StreamExists => write_all(sink, b"stream exists\n"),
        Status::Refused { refusal } => write_refused(sink, refusal),
        Status::Unavailable { need, have } => write_two_numbers(
            sink,
            b"unavailable: need ",
            u64::from(*need),
            b"have ",
            u64::from(*have),
        ),
        Status::Limit { name, number } => write_limit(sink, *name, *number),
        Status::NoMemory => write_all(sink, b"no memory\n"),
        Status::AlreadyInitialised => write_all(sink, b"already initialised\n"),
        Status::Lacking { ledger, entry } => {
            write_two_numbers(sink, b"lacking: ledger ", *ledger, b"entry ", *entry)
        }
    }
}

/// Gives the whole line of a status.
fn write_line<K: Sink>(sink: &mut K, status: &Status) -> Result<(), WriteFailed>
    ensures { Writes (K.view sink.old) (K.view sink.new) (note_line status.now) result }
{
    write_all(sink, b"dlog: ")?;
    write_text(sink, status)
}

/// Gives the whole line of a status and finishes it.
fn finish_line<K: Sink>(sink: &mut K, status: &Status) -> Result<(), WriteFailed>
    ensures { WritesOut (K.view sink.old) (K.view sink.new) (note_line status.now) result }
{
    write_line(sink, status)?;
    sink.finish()
}

/// Notes how the program ends: gives the one line of a status to the sink and finishes it. A good end has no line, and
/// then no call is made. It stops at the first fault, which the sink counts: a front of the line was given then, and how
/// much is finished stays. It takes no memory.
pub fn write_note<N: Sink>(notes: &mut N, status: &Status)
    ensures notes { Notes (N.view notes.old) (N.view notes.new) status.now }
    ensures silent { status.now ≡ Status.Ok → notes.new ≡ notes.old }
{
    match status {
        Status::Ok => {}
        _ => {
            let _ = finish_line(notes, status);
        }
    }
}
