//! What a read does at messages about a segment's ledger, entry by entry.

ghost use Rattle.std.specs.Prelude.{◌≡◌, ℕ, IfOk, nat_le, length};
ghost use Rattle.dl_record.specs.Reading.{entry_at};
ghost use Rattle.dl_rules_ledger.specs.Readers.{ReaderStage, Fetched};
ghost use Rattle.dl_rules_stream.specs.LogReaders as rule;
ghost use Rattle.dl_lread.specs.Standing.{got_in};
ghost use Rattle.dl_reader.specs.Readings.{with_rows};
ghost use Rattle.dl_reader.specs.Steps.{IsAfter, IsStep};
ghost use Rattle.dl_reader.specs.Walks.{IsWalk};

use crate::gathered::Gathered;
use crate::given::Given;
use crate::reading::Reading;
use crate::segments::walks;
use crate::span::Span;
use crate::stage::Stage;
use crate::step::{After, Ahead, Step};
use crate::walk::Walk;
use dl_formats::segment_name::SegmentName;
use dl_lread::got::Got;
use dl_msg::msg::Msg;
use dl_msg::turn::Turn;
use dl_types::dlsn::Dlsn;
use dl_types::entry_bytes::EntryBytes;
use dl_types::memory::NoMemory;
use std::alloc::Global;
use std::collections::VecDeque;

/// An entry is fetched, where it can be read; else the next segment is walked.
fn fetches(
    alloc: Global,
    given: &Given,
    left: &VecDeque<SegmentName>,
    walk: Walk,
    readable: u64,
    entry: u64,
) -> Result<Step, NoMemory>
    ensures { IfOk result (λ step. (r : rule.Read) (w : rule.Walk) (s : ReaderStage)
        → IsWalk w s walk → w.rest ≡ left.now.items
        → IsStep given.now r left.now.items (rule.fetches given.now r w readable entry) step) }
{
    if entry < readable {
        let (walk, turn) = walk.ask(entry)?;
        let span = Span { entry, readable };
        Ok(Step::Goes {
            stage: Stage::Fetching { walk, span },
            turn,
            ahead: Ahead::Stay,
        })
    } else {
        walks(alloc, given, left)
    }
}

/// The first entry of a segment that may hold a row at or above the cursor.
fn first_entry(cursor: Dlsn, segment: u64) -> u64
    ensures { (r : rule.Read) → r.from.cursor ≡ cursor → result ≡ rule.first_entry r segment }
{
    if segment == cursor.segment {
        cursor.entry
    } else {
        0
    }
}

/// A segment is walked up to this count of entries.
pub(crate) fn reads_upto(
    alloc: Global,
    given: &Given,
    reading: &Reading,
    walk: Walk,
    readable: u64,
) -> Result<Step, NoMemory>
    ensures { IfOk result (λ step. (w : rule.Walk) (s : ReaderStage)
        → IsWalk w s walk → w.rest ≡ reading.now.left
        → IsStep given.now reading.now.read reading.now.left
        (rule.reads_upto given.now reading.now.read w readable) step) }
{
    let entry = first_entry(reading.from.cursor, walk.segment);
    fetches(alloc, given, &reading.left, walk, readable, entry)
}

/// The count of entries that can be read is there, or it waits for more.
fn after_counted(
    alloc: Global,
    given: &Given,
    reading: &Reading,
    walk: Walk,
    got: &Got,
) -> Result<Step, NoMemory>
    ensures { IfOk result (λ step. (w : rule.Walk) (s : ReaderStage)
        → IsWalk w s walk → got.now ≡ got_in s → w.rest ≡ reading.now.left
        → IsStep given.now reading.now.read reading.now.left
        (rule.after_counted given.now reading.now.read w s) step) }
{
    match got {
        Got::Lac(readable) => reads_upto(alloc, given, reading, walk, *readable),
        _ => Ok(Step::Goes {
            stage: Stage::Counting { walk },
            turn: Turn::Wait,
            ahead: Ahead::Stay,
        }),
    }
}

/// What a read does at a message while it counts.
pub(crate) fn at_counting(
    alloc: Global,
    given: &Given,
    reading: &Reading,
    walk: &Walk,
    bookie: u8,
    msg: &Msg,
) -> Result<After, NoMemory>
    ensures { IfOk result (λ after. (w : rule.Walk) (s : ReaderStage)
        → IsWalk w s walk.now → w.rest ≡ reading.now.left
        → let at = rule.CountingEntries reading.now.read w s in
        IsAfter given.now reading.now.read reading.now.left at
        (rule.read_told given.now at bookie msg.now) after) }
{
    let (walk, got) = walk.heard(bookie, msg)?;
    let step = after_counted(alloc, given, reading, walk, &got)?;
    Ok(After::Takes(step))
}

/// Whether a read has as many rows as it may give, with these behind those that it has.
fn is_enough(reading: &Reading, rows: &Gathered) -> bool
    ensures { result
        ≡ nat_le reading.now.read.count (length (with_rows reading.now.read rows.now).rows) }
{
    let wanting = (reading.count as usize).saturating_sub(reading.rows.len());
    wanting <= rows.len()
}

/// The read has enough with these rows, or the next entry is fetched.
fn goes_on(
    alloc: Global,
    given: &Given,
    reading: &Reading,
    rows: &Gathered,
    walk: Walk,
    span: Span,
) -> Result<Step, NoMemory>
    ensures { let r = with_rows reading.now.read rows.now in
        IfOk result (λ step. (w : rule.Walk) (s : ReaderStage)
        → IsWalk w s walk → w.rest ≡ reading.now.left
        → IsStep given.now r reading.now.left
        (rule.after_rows given.now w span.readable span.entry r) step) }
{
    if is_enough(reading, rows) {
        Ok(Step::Ends)
    } else {
        fetches(
            alloc,
            given,
            &reading.left,
            walk,
            span.readable,
            span.entry + 1,
        )
    }
}

/// The entry has come: its rows are gathered, and the next one is fetched, unless the read has enough.
fn after_entry(
    alloc: Global,
    given: &Given,
    reading: &Reading,
    walk: Walk,
    span: Span,
    bytes: &EntryBytes,
) -> Result<After, NoMemory>
    ensures { IfOk result (λ after. (w : rule.Walk) (s : ReaderStage) (at : rule.ReadStage)
        → IsWalk w s walk → w.rest ≡ reading.now.left
        → IsAfter given.now reading.now.read reading.now.left at
        (rule.after_told given.now reading.now.read w span.readable span.entry (Fetched bytes.now))
        after) }
{
    let rows = Gathered::of_entry(alloc, reading.from, walk.segment, span.entry, bytes)?;
    let step = goes_on(alloc, given, reading, &rows, walk, span)?;
    Ok(After::Gathers(rows, step))
}

/// The entry that was asked for has come, or it waits for more.
fn after_told(
    alloc: Global,
    given: &Given,
    reading: &Reading,
    walk: Walk,
    span: Span,
    got: &Got,
) -> Result<After, NoMemory>
    ensures { IfOk result (λ after. (w : rule.Walk) (s : ReaderStage) (at : rule.ReadStage)
        → IsWalk w s walk → got.now ≡ got_in s → w.rest ≡ reading.now.left
        → IsAfter given.now reading.now.read reading.now.left at
        (rule.after_told given.now reading.now.read w span.readable span.entry s) after) }
{
    match got {
        Got::Entry(bytes) => after_entry(alloc, given, reading, walk, span, bytes),
        _ => Ok(After::Takes(Step::Goes {
            stage: Stage::Fetching { walk, span },
            turn: Turn::Wait,
            ahead: Ahead::Stay,
        })),
    }
}

/// What a read does at a message while it fetches an entry.
pub(crate) fn at_fetching(
    alloc: Global,
    given: &Given,
    reading: &Reading,
    walk: &Walk,
    span: Span,
    bookie: u8,
    msg: &Msg,
) -> Result<After, NoMemory>
    ensures { IfOk result (λ after. (w : rule.Walk) (s : ReaderStage)
        → IsWalk w s walk.now → w.rest ≡ reading.now.left
        → let at = rule.FetchingEntry reading.now.read w span.readable span.entry s in
        IsAfter given.now reading.now.read reading.now.left at
        (rule.read_told given.now at bookie msg.now) after) }
{
    let (walk, got) = walk.heard(bookie, msg)?;
    after_told(alloc, given, reading, walk, span, &got)
}
