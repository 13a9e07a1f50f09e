use bytes::Bytes;
use dl_formats::conf::Conf;
use dl_formats::cut::Cut;
use dl_formats::encode::{encode_cut, encode_ledger, encode_segment};
use dl_formats::ledger::{LedgerMeta, LedgerState};
use dl_formats::segment::SegmentMeta;
use dl_msg::heard::Heard;
use dl_msg::letters::Letters;
use dl_msg::msg::Msg;
use dl_msg::turn::Turn;
use dl_reader::reader::LogReader;
use dl_types::body::Body;
use dl_types::dlsn::Dlsn;
use dl_types::memory::NoMemory;
use dl_types::meta_answer::MetaAnswer;
use dl_types::meta_op::MetaOp;
use dl_types::name::Name;
use dl_types::names::Names;
use dl_types::one_answer::OneAnswer;
use dl_types::one_answers::OneAnswers;
use dl_types::one_op::OneOp;
use dl_types::path::Path;
use dl_types::place::Place;
use dl_types::quorum::Quorum;
use dl_types::read_row::ReadRows;
use dl_types::refusal::Refusal;
use dl_types::start::Start;
use dl_types::txid::{MAX_TXID, TxId};
use dl_types::why::Why;
use std::alloc::Global;
use std::test::Fail;

/// The bookies of the tests; each ledger is on all of them, from the one on that its number says.
const CONF: Conf = Conf {
    b: 3,
    e: 3,
    qw: 2,
    qa: 2,
};

/// What stands before the first space, and what stands after it.
fn cut(text: &str) -> (&str, &str) {
    text.split_once(' ').unwrap_or((text, ""))
}

/// The number of a word, or 0.
fn number_of(word: &str) -> u64 {
    word.parse::<u64>().unwrap_or(0)
}

/// A small number of a word, or 0.
fn small_number_of(word: &str) -> u8 {
    word.parse::<u8>().unwrap_or(0)
}

/// The place of a word `SEGMENT.ENTRY.SLOT`.
fn place_of(word: &str) -> Dlsn {
    let (segment, rest) = word.split_once('.').unwrap_or((word, ""));
    let (entry, slot) = rest.split_once('.').unwrap_or((rest, ""));
    Dlsn {
        segment: number_of(segment),
        entry: number_of(entry),
        slot: slot.parse::<u32>().unwrap_or(0),
    }
}

/// The id of a word.
fn txid_of(word: &str) -> TxId {
    TxId::new(number_of(word).min(MAX_TXID))
}

// ---- what is heard

/// The name of a child of `segs`, from a letter and a digit.
fn name_of(alloc: Global, word: &str) -> Result<Path, NoMemory> {
    let mut name = Vec::new(alloc);
    for (at, byte) in word.as_bytes().iter().enumerate() {
        if at == 1 {
            name.extend_from_slice(b"000000000")?;
        }
        name.push(*byte)?;
    }
    Path::from_vec(name)
}

/// The list of segments with the point: `POINT NAME ..`.
fn listed(alloc: Global, rest: &str) -> Result<MetaAnswer, NoMemory> {
    let (point, words) = cut(rest);
    let mut names = Names::new(alloc);
    for word in words.split(' ') {
        names.push(name_of(alloc, word)?)?;
    }
    let cut = Cut {
        point: place_of(point),
    };
    let bytes = Body::from_vec(encode_cut(alloc, &cut)?)?;
    let mut answers = OneAnswers::new(alloc);
    answers.push(OneAnswer::Names(names))?;
    answers.push(OneAnswer::Bytes { bytes, version: 0 })?;
    Ok(MetaAnswer::Many(answers))
}

/// The bytes of one node.
fn node(bytes: Vec<u8>) -> Result<MetaAnswer, NoMemory> {
    let bytes = Body::from_vec(bytes)?;
    Ok(MetaAnswer::One(OneAnswer::Bytes { bytes, version: 0 }))
}

/// A segment's node: `SEGMENT LEDGER` of one in progress, or with the count of entries of a completed one.
fn segment(alloc: Global, rest: &str) -> Result<MetaAnswer, NoMemory> {
    let (segment, rest) = cut(rest);
    let (ledger, entries) = cut(rest);
    let segment = number_of(segment);
    let ledger = number_of(ledger);
    let meta = if entries.is_empty() {
        SegmentMeta::InProgress { segment, ledger }
    } else {
        SegmentMeta::Completed {
            segment,
            ledger,
            entries: number_of(entries),
            rows: 0,
            last: TxId::new(0),
        }
    };
    node(encode_segment(alloc, &meta)?)
}

/// A ledger's node: `open`, or the count of a closed one.
fn ledger(alloc: Global, word: &str) -> Result<MetaAnswer, Fail> {
    let state = if word == "open" {
        LedgerState::Writing
    } else {
        LedgerState::Closed
    };
    let meta = LedgerMeta {
        state,
        q: Quorum::new(3, 2, 2)?,
        count: number_of(word),
    };
    Ok(node(encode_ledger(alloc, &meta)?)?)
}

/// The failure of a request by the reason of a word.
fn failed(word: &str) -> MetaAnswer {
    let why = match word {
        "gone" => Why::NoNode,
        "moved" => Why::BadVersion(5),
        _ => Why::Spent,
    };
    MetaAnswer::Failed { place: 0, why }
}

/// An entry of a row for each id, whose payload is one byte; it has no bytes of an entry where there is no id.
fn entry_bytes(alloc: Global, ids: &str) -> Result<Bytes, NoMemory> {
    let mut records = Vec::new(alloc);
    let mut count = 0u8;
    for id in ids.split(' ') {
        records.extend_from_slice(&[0, 0, 0, count, 0, 0, 0, 0])?;
        records.extend_from_slice(&[0, 0, 0, 0, 0, 0, 0, small_number_of(id)])?;
        records.extend_from_slice(&[0, 0, 0, 1, b'a'])?;
        count = count.saturating_add(1);
    }
    let size = count.saturating_mul(21);
    let mut bytes = Vec::new(alloc);
    bytes.extend_from_slice(&[1, 0, 0, count, 0, 0, 0, size])?;
    bytes.extend_from_slice(records.as_slice())?;
    Ok(Bytes::from_vec(bytes)?)
}

/// The bytes of an entry: `LEDGER BOOKIE ENTRY ID ..`.
fn entry(alloc: Global, rest: &str) -> Result<Heard, NoMemory> {
    let (ledger, rest) = cut(rest);
    let (bookie, rest) = cut(rest);
    let (entry, ids) = cut(rest);
    let msg = Msg::EntryIs {
        tag: 7,
        ledger: number_of(ledger),
        entry: number_of(entry),
        bytes: entry_bytes(alloc, ids)?,
    };
    Ok(Heard::From(small_number_of(bookie), msg))
}

/// The count of a bookie: `LEDGER BOOKIE COUNT`.
fn count(rest: &str) -> Heard {
    let (ledger, rest) = cut(rest);
    let (bookie, count) = cut(rest);
    let msg = Msg::LacIs {
        tag: 7,
        ledger: number_of(ledger),
        fenced: false,
        count: number_of(count),
    };
    Heard::From(small_number_of(bookie), msg)
}

/// What a line says that is heard.
fn heard(alloc: Global, verb: &str, rest: &str) -> Result<Heard, Fail> {
    match verb {
        "count" => Ok(count(rest)),
        "entry" => Ok(entry(alloc, rest)?),
        "listed" => Ok(Heard::Reply(listed(alloc, rest)?)),
        "segment" => Ok(Heard::Reply(segment(alloc, rest)?)),
        "ledger" => Ok(Heard::Reply(ledger(alloc, rest)?)),
        _ => Ok(Heard::Reply(failed(rest))),
    }
}

// ---- what is told

/// Tells bytes that are text.
fn tell_text(out: &mut String, bytes: &[u8]) -> Result<(), NoMemory> {
    out.push_str(std::str::from_utf8(bytes).unwrap_or("?"))?;
    Ok(())
}

/// Tells a place.
fn tell_place(out: &mut String, place: Dlsn) -> Result<(), NoMemory> {
    let Dlsn {
        segment,
        entry,
        slot,
    } = place;
    write!(out, "{segment}.{entry}.{slot}")?;
    Ok(())
}

/// Tells the path that a request reads, or lists first.
fn tell_request(out: &mut String, request: &MetaOp) -> Result<(), NoMemory> {
    out.push_str("asks ")?;
    match request {
        MetaOp::One(OneOp::Get { path }) => tell_text(out, path.as_slice()),
        MetaOp::Multi { ops } => match ops.as_slice() {
            [OneOp::Children { path }, OneOp::Get { .. }] => tell_text(out, path.as_slice()),
            _ => Ok(out.push_str("?")?),
        },
        _ => Ok(out.push_str("?")?),
    }
}

/// Tells letters: the bookie of each, and what it is asked.
fn tell_letters(out: &mut String, letters: &Letters) -> Result<(), NoMemory> {
    out.push_str("tells")?;
    for told in letters.as_slice() {
        let bookie = told.bookie.number();
        match &told.msg {
            Msg::AskLac { fence: false, .. } => write!(out, " {bookie}: count")?,
            Msg::AskEntry { entry, .. } => write!(out, " {bookie}: {entry}")?,
            _ => write!(out, " {bookie}: ?")?,
        }
    }
    Ok(())
}

/// Tells rows: the place and the id of each.
fn tell_rows(out: &mut String, rows: &ReadRows) -> Result<(), NoMemory> {
    out.push_str("done")?;
    for row in rows.as_slice() {
        out.push_str(" ")?;
        tell_place(out, row.place)?;
        write!(out, "={}", row.txid.number())?;
    }
    Ok(())
}

/// Tells a refusal.
fn tell_refusal(out: &mut String, refusal: &Refusal) -> Result<(), NoMemory> {
    out.push_str("refused ")?;
    match refusal {
        Refusal::NoStream => Ok(out.push_str("no stream")?),
        Refusal::Truncated { point } => {
            out.push_str("truncated ")?;
            tell_place(out, *point)
        }
        Refusal::GaveUp { path } => {
            out.push_str("gave up ")?;
            tell_text(out, path.as_slice())
        }
        _ => Ok(out.push_str("otherwise")?),
    }
}

/// Tells a turn.
fn tell_turn(out: &mut String, turn: &Turn<ReadRows>) -> Result<(), NoMemory> {
    match turn {
        Turn::Wait => Ok(out.push_str("waits")?),
        Turn::Ask(request) => tell_request(out, request),
        Turn::Tell(letters) => tell_letters(out, letters),
        Turn::Done(rows) => tell_rows(out, rows),
        Turn::Refused(refusal) => tell_refusal(out, refusal),
    }
}

/// Tells where the next read begins.
fn tell_cursor(out: &mut String, reader: &LogReader) -> Result<(), NoMemory> {
    let (cursor, floor) = reader.cursor();
    tell_place(out, cursor)?;
    write!(out, " from {}", floor.number())?;
    Ok(())
}

// ---- rows

/// A reader that starts as a line says: `oldest POINT`, `place PLACE POINT` or `tx ID POINT`.
fn started(alloc: Global, verb: &str, rest: &str) -> Result<LogReader, Fail> {
    let (word, behind) = cut(rest);
    let (from, point) = match verb {
        "place" => {
            let mut dlsn = place_of(word);
            dlsn.segment = dlsn.segment.max(1);
            (Start::Place(Place::new(dlsn)), behind)
        }
        "tx" => (Start::Tx(txid_of(word)), behind),
        _ => (Start::Oldest, word),
    };
    let stream = Name::new(alloc, b"s")?;
    Ok(LogReader::start(alloc, &stream, from, place_of(point), CONF)?)
}

/// What a line gives: `cursor`, `read COUNT`, or what is heard.
fn run(alloc: Global, reader: &mut LogReader, line: &str) -> Result<String, Fail> {
    let mut out = String::new(alloc);
    let (verb, rest) = cut(line);
    if verb == "cursor" {
        tell_cursor(&mut out, reader)?;
        return Ok(out);
    }
    let turn = if verb == "read" {
        reader.read(7, u32::from(small_number_of(rest)))?
    } else {
        reader.hear(&heard(alloc, verb, rest)?)?
    };
    tell_turn(&mut out, &turn)?;
    Ok(out)
}

/// Readers by how they start, and what they answer to reads and to what they hear.
fn rows() -> &'static str {
    "
# a completed segment is read to its end, the open one behind it up to the confirmed count
oldest 1.0.0
read 9 => asks /streams/s/segs
listed 1.0.0 p2 c1 => asks /streams/s/segs/c0000000001
segment 1 4 2 => asks /ledgers/L0000000004
ledger 2 => tells 1: 0 2: 0
entry 4 1 0 5 6 => tells 2: 1 0: 1
entry 4 1 0 5 6 => waits
entry 4 2 1 7 => asks /streams/s/segs/p0000000002
segment 2 3 => asks /ledgers/L0000000003
ledger open => tells 0: count 1: count 2: count
count 3 0 1 => waits
count 3 1 0 => tells 0: 0 1: 0
entry 3 1 0 8 => done 1.0.0=5 1.0.1=6 1.1.0=7 2.0.0=8
cursor => 2.0.1 from 0
# the next read begins behind these rows, and finds the end
read 9 => asks /streams/s/segs
listed 1.0.0 c1 p2 => asks /streams/s/segs/p0000000002
segment 2 3 => asks /ledgers/L0000000003
ledger open => tells 0: count 1: count 2: count
count 3 2 1 => waits
count 3 1 1 => tells 0: 0 1: 0
entry 3 0 0 8 => done
cursor => 2.0.1 from 0
# a closed ledger of a segment in progress is read to its end, and no more rows are given than were asked for
read 2 => asks /streams/s/segs
listed 1.0.0 p2 c3 => asks /streams/s/segs/p0000000002
segment 2 3 => asks /ledgers/L0000000003
ledger 1 => tells 0: 0 1: 0
entry 3 0 0 8 => asks /streams/s/segs/c0000000003
segment 3 5 4 => asks /ledgers/L0000000005
ledger 4 => tells 2: 0 0: 0
entry 5 0 0 9 9 9 => done 3.0.0=9 3.0.1=9
cursor => 3.0.2 from 0
# a place below the point is that of the point; rows below it are not given, and a list without segments is the end
place 1.4.0 2.0.1
cursor => 2.0.1 from 0
read 9 => asks /streams/s/segs
listed 2.0.1 c2 => asks /streams/s/segs/c0000000002
segment 2 3 1 => asks /ledgers/L0000000003
ledger 1 => tells 0: 0 1: 0
entry 3 0 0 4 5 6 => done 2.0.1=5 2.0.2=6
read 9 => asks /streams/s/segs
listed 2.0.1 x => done
# a purge overtakes the cursor
place 2.1.0 1.0.0
read 9 => asks /streams/s/segs
listed 3.0.0 c3 => refused truncated 3.0.0
read 9 => asks /streams/s/segs
listed 3.0.0 x => refused truncated 3.0.0
read 9 => asks /streams/s/segs
listed 2.5.0 c2 => asks /streams/s/segs/c0000000002
# by transaction id, between two points: rows with lesser ids are passed over
tx 6 1.0.0
cursor => 1.0.0 from 6
read 2 => asks /streams/s/segs
listed 1.0.1 c1 => asks /streams/s/segs/c0000000001
segment 1 4 2 => asks /ledgers/L0000000004
ledger 2 => tells 1: 0 2: 0
entry 4 1 0 5 5 => tells 2: 1 0: 1
entry 4 0 1 5 6 7 8 => done 1.1.1=6 1.1.2=7
cursor => 1.1.3 from 6
# what is gone makes it begin again, but no ledger twice in a row; bytes with a flaw have no rows
oldest 1.0.0
read 9 => asks /streams/s/segs
listed 1.0.0 c1 => asks /streams/s/segs/c0000000001
failed gone => asks /streams/s/segs
listed 1.0.0 c1 => asks /streams/s/segs/c0000000001
segment 1 4 2 => asks /ledgers/L0000000004
failed gone => asks /streams/s/segs
listed 1.0.0 c1 => asks /streams/s/segs/c0000000001
segment 1 4 2 => asks /ledgers/L0000000004
failed gone => refused gave up /ledgers/L0000000004
read 9 => asks /streams/s/segs
failed gone => refused no stream
failed gone => waits
read 9 => asks /streams/s/segs
listed 1.0.0 c1 => asks /streams/s/segs/c0000000001
segment 2 4 2 => refused gave up /streams/s/segs/c0000000001
read 9 => asks /streams/s/segs
listed 1.0.0 c1 => asks /streams/s/segs/c0000000001
segment 1 4 2 => asks /ledgers/L0000000004
ledger 2 => tells 1: 0 2: 0
entry 4 1 0 6 5 => tells 2: 1 0: 1
entry 4 2 1 5 => done 1.1.0=5
"
}

#[test]
fn each_row_of_calls(rt: HostRuntime) -> Result<(), Fail> {
    let alloc = rt.alloc();
    let mut reader = started(alloc, "oldest", "1.0.0")?;
    let mut count = 0u32;
    for row in rows().lines() {
        let Some((line, want)) = row.split_once(" => ") else {
            let (verb, rest) = cut(row);
            if verb != "#" {
                reader = started(alloc, verb, rest)?;
            }
            continue;
        };
        let told = run(alloc, &mut reader, line)?;
        assert_eq!(rt; told.as_str(), want, "at {line}");
        count = count.saturating_add(1);
    }
    assert_eq!(rt; count, 73);
    Ok(())
}
