use dl_formats::conf::Conf;
use dl_formats::decode::decode_segment;
use dl_formats::encode::{encode_ledger, encode_segment};
use dl_formats::ledger::{LedgerMeta, LedgerState};
use dl_formats::maxseq::MaxSeq;
use dl_formats::segment::SegmentMeta;
use dl_msg::heard::Heard;
use dl_msg::letters::Letters;
use dl_msg::msg::Msg;
use dl_msg::turn::Turn;
use dl_record::encode::control;
use dl_segrecover::recovered::Recovered;
use dl_segrecover::segment_recovery::SegmentRecovery;
use dl_types::body::Body;
use dl_types::memory::NoMemory;
use dl_types::meta_answer::MetaAnswer;
use dl_types::meta_op::MetaOp;
use dl_types::name::Name;
use dl_types::one_answer::OneAnswer;
use dl_types::one_op::OneOp;
use dl_types::path::Path;
use dl_types::quorum::Quorum;
use dl_types::refusal::Refusal;
use dl_types::txid::TxId;
use dl_types::why::Why;
use std::alloc::Global;
use std::test::Fail;

/// The ledger of the segment: with five bookies its ensemble of four begins at the last one, so that the bookies of its
/// places are 4, 0, 1 and 2.
const LEDGER: u64 = 4;

/// The segment.
const SEGMENT: u64 = 3;

/// What stands before the first space, and what stands after it.
fn cut(text: &str) -> (&str, &str) {
    text.split_once(' ').unwrap_or((text, ""))
}

/// The number of a word, or 0.
fn number_of(word: &str) -> u8 {
    match word.parse::<u8>() {
        Ok(number) => number,
        Err(_) => 0,
    }
}

/// Tells letters: the bookie of each, and what it is told.
fn tell_letters(out: &mut String, letters: &Letters) -> Result<(), NoMemory> {
    out.push_str("tells")?;
    for told in letters.as_slice() {
        let bookie = told.bookie.number();
        match &told.msg {
            Msg::AskLac { fence: true, .. } => write!(out, " {bookie}: fence")?,
            Msg::AskEntry { entry, .. } => write!(out, " {bookie}: ask {entry}")?,
            _ => write!(out, " {bookie}: ?")?,
        }
    }
    Ok(())
}

/// Tells what the node of a completed segment says.
fn tell_segment(out: &mut String, meta: &SegmentMeta) -> Result<(), NoMemory> {
    match meta {
        SegmentMeta::InProgress { .. } => out.push_str(" create")?,
        SegmentMeta::Completed {
            entries,
            rows,
            last,
            ..
        } => {
            let last = last.number();
            write!(out, " create {entries}/{rows}/{last}")?;
        }
    }
    Ok(())
}

/// Tells an operation that makes a node of these bytes.
fn tell_create(out: &mut String, bytes: &[u8]) -> Result<(), NoMemory> {
    match decode_segment(bytes) {
        Ok(meta) => tell_segment(out, &meta),
        Err(_) => Ok(()),
    }
}

/// Tells one operation: what it does, and for the node of a completed segment what that says.
fn tell_op(out: &mut String, op: &OneOp) -> Result<(), NoMemory> {
    match op {
        OneOp::Get { .. } => out.push_str(" get")?,
        OneOp::Set { .. } => out.push_str(" set")?,
        OneOp::Check { .. } => out.push_str(" check")?,
        OneOp::Delete { .. } => out.push_str(" delete")?,
        OneOp::Children { .. } => out.push_str(" list")?,
        OneOp::Create { bytes, .. } => tell_create(out, bytes.as_slice())?,
    }
    Ok(())
}

/// Tells a request.
fn tell_request(out: &mut String, request: &MetaOp) -> Result<(), NoMemory> {
    out.push_str("asks")?;
    match request {
        MetaOp::One(op) => tell_op(out, op)?,
        MetaOp::Multi { ops } => {
            for op in ops.as_slice() {
                tell_op(out, op)?;
            }
        }
    }
    Ok(())
}

/// Tells a turn.
fn tell_turn(alloc: Global, turn: &Turn<Recovered>) -> Result<String, NoMemory> {
    let mut out = String::new(alloc);
    match turn {
        Turn::Wait => out.push_str("waits")?,
        Turn::Ask(request) => tell_request(&mut out, request)?,
        Turn::Tell(letters) => tell_letters(&mut out, letters)?,
        Turn::Done(Recovered::Closed(count)) => write!(out, "closed at {count}")?,
        Turn::Done(Recovered::Again) => out.push_str("again")?,
        Turn::Refused(Refusal::Moved { version, .. }) => write!(out, "moved to {version}")?,
        Turn::Refused(Refusal::GaveUp { .. }) => out.push_str("gives up")?,
        Turn::Refused(_) => out.push_str("refused")?,
    }
    Ok(out)
}

/// The bytes of a node, at version 0.
fn node(bytes: Vec<u8>) -> Result<MetaAnswer, NoMemory> {
    Ok(MetaAnswer::One(OneAnswer::Bytes {
        bytes: Body::from_vec(bytes)?,
        version: 0,
    }))
}

/// The node of the ledger, closed at a count, or else being written.
fn ledger_node(alloc: Global, word: &str) -> Result<MetaAnswer, Fail> {
    let (state, count) = match word {
        "writing" => (LedgerState::Writing, 0),
        _ => (LedgerState::Closed, u64::from(number_of(word))),
    };
    let q = Quorum::new(4, 3, 2)?;
    Ok(node(encode_ledger(alloc, &LedgerMeta { state, q, count })?)?)
}

/// The node of a segment in progress of this number.
fn segment_node(alloc: Global, segment: u64) -> Result<MetaAnswer, NoMemory> {
    let ledger = LEDGER;
    node(encode_segment(alloc, &SegmentMeta::InProgress { segment, ledger })?)
}

/// The failure of a request, `WHY PLACE`.
fn failure(words: &str) -> MetaAnswer {
    let (word, place) = cut(words);
    let why = match word {
        "moved" => Why::BadVersion(5),
        "gone" => Why::NoNode,
        _ => Why::Spent,
    };
    MetaAnswer::Failed {
        place: u16::from(number_of(place)),
        why,
    }
}

/// The reply that a line says, where it says one: `segment NUMBER`, `ledger STATE`, `version`, `done`, or `fails WHY PLACE`.
fn reply(alloc: Global, verb: &str, rest: &str) -> Result<Option<MetaAnswer>, Fail> {
    match verb {
        "segment" => Ok(Some(segment_node(alloc, u64::from(number_of(rest)))?)),
        "ledger" => Ok(Some(ledger_node(alloc, rest)?)),
        "version" => Ok(Some(MetaAnswer::One(OneAnswer::Version(1)))),
        "done" => Ok(Some(MetaAnswer::One(OneAnswer::Done))),
        "fails" => Ok(Some(failure(rest))),
        _ => Ok(None),
    }
}

/// The message of a verb with a number: a count with the fenced bit, a denial with it, an entry of a control record behind five
/// rows with the id 9, or bytes that are no entry.
fn message(alloc: Global, verb: &str, number: u64) -> Result<Msg, NoMemory> {
    let (tag, ledger, fenced) = (7, LEDGER, true);
    match verb {
        "fenced" => Ok(Msg::LacIs {
            tag,
            ledger,
            fenced,
            count: number,
        }),
        "denied" => Ok(Msg::NoEntry {
            tag,
            ledger,
            entry: number,
            fenced,
        }),
        _ => Ok(Msg::EntryIs {
            tag,
            ledger,
            entry: number,
            bytes: control(alloc, 5, TxId::new(9))?.into_bytes(),
        }),
    }
}

/// What a line says: a reply, or a message `VERB BOOKIE NUMBER`.
fn heard(alloc: Global, line: &str) -> Result<Heard, Fail> {
    let (verb, rest) = cut(line);
    if let Some(answer) = reply(alloc, verb, rest)? {
        return Ok(Heard::Reply(answer));
    }
    let (bookie, number) = cut(rest);
    let msg = message(alloc, verb, u64::from(number_of(number)))?;
    Ok(Heard::From(number_of(bookie), msg))
}

/// What recoveries do at what they hear, with ensembles of four, write quorums of three and ack quorums of two. One with a
/// member of the stream's lock begins with `owner`, another with `start`.
fn rows() -> &'static str {
    "
# the ledger is recovered, its last entry read, and the segment completed
owner
denied 0 2 => waits
segment 3 => asks get
ledger writing => asks set
version => tells 4: fence 0: fence 1: fence 2: fence
fenced 4 2 => waits
fenced 0 2 => waits
fenced 1 1 => tells 1: ask 2 2: ask 2 4: ask 2
denied 1 2 => waits
denied 2 2 => asks set
denied 4 2 => waits
version => tells 0: ask 1 1: ask 1 2: ask 1
version => waits
entry 0 0 => waits
entry 4 1 => waits
entry 2 1 => asks check delete create 2/5/9 set
entry 0 1 => waits
done => closed at 2
done => waits
# an empty ledger has the last id of the stream
start
segment 3 => asks get
ledger 0 => asks delete create 0/0/6 set
fails gone 1 => gives up
start
segment 3 => asks get
ledger 0 => asks delete create 0/0/6 set
fails gone 0 => closed at 0
# with a member the deletion has another place
owner
segment 3 => asks get
ledger 0 => asks check delete create 0/0/6 set
fails gone 0 => gives up
owner
segment 3 => asks get
ledger 0 => asks check delete create 0/0/6 set
fails moved 3 => moved to 5
# the segment is another, or gone
start
segment 2 => gives up
start
fails gone 0 => again
# the ledger is gone
start
segment 3 => asks get
fails gone 0 => asks get
fails gone 0 => again
start
segment 3 => asks get
fails gone 0 => asks get
segment 3 => gives up
# the recovery of the ledger has no way on
start
segment 3 => asks get
fails full 0 => gives up
segment 3 => waits
"
}

/// A recovery of the segment that has asked for its node.
fn new_recovery(alloc: Global, member: Option<&Path>) -> Result<SegmentRecovery, Fail> {
    let conf = Conf {
        b: 5,
        e: 3,
        qw: 3,
        qa: 2,
    };
    let maxseq = MaxSeq {
        segment: SEGMENT,
        last: TxId::new(6),
    };
    let stream = Name::new(alloc, b"s")?;
    let (recovery, _turn) = SegmentRecovery::start(
        alloc, 7, &stream, member, SEGMENT, maxseq, 1, conf,
    )?;
    Ok(recovery)
}

#[test]
fn each_row_of_calls(rt: HostRuntime) -> Result<(), Fail> {
    let alloc = rt.alloc();
    let member = Path::new(alloc, b"/streams/s/lock/m-0000000002")?;
    let mut recovery = new_recovery(alloc, None)?;
    let mut count = 0u32;
    for row in rows().lines() {
        if row == "start" {
            recovery = new_recovery(alloc, None)?;
        }
        if row == "owner" {
            recovery = new_recovery(alloc, Some(&member))?;
        }
        let Some((line, want)) = row.split_once(" => ") else {
            continue;
        };
        let turn = recovery.hear(&heard(alloc, line)?)?;
        let told = tell_turn(alloc, &turn)?;
        assert_eq!(rt; told.as_str(), want, "at {line}");
        count = count.saturating_add(1);
    }
    assert_eq!(rt; count, 41);
    Ok(())
}
