use bytes::Bytes;
use dl_formats::conf::Conf;
use dl_formats::encode::encode_ledger;
use dl_formats::ledger::{LedgerMeta, LedgerState};
use dl_lrecover::outcome::{Missing, Outcome};
use dl_lrecover::recovery::Recovery;
use dl_msg::heard::Heard;
use dl_msg::letters::Letters;
use dl_msg::msg::Msg;
use dl_msg::turn::Turn;
use dl_types::body::Body;
use dl_types::memory::NoMemory;
use dl_types::meta_answer::MetaAnswer;
use dl_types::one_answer::OneAnswer;
use dl_types::quorum::Quorum;
use dl_types::why::Why;
use std::alloc::Global;
use std::test::Fail;

/// The ledger of the tests: with five bookies its ensemble of four begins at the last one, so that the bookies of its
/// places are 4, 0, 1 and 2.
const LEDGER: u64 = 4;

/// What stands before the first space, and what stands after it.
fn cut(text: &str) -> (&str, &str) {
    text.split_once(' ').unwrap_or((text, ""))
}

/// The number of a word, or 0.
fn number_of(word: &str) -> u8 {
    match word.parse::<u8>() {
        Ok(number) => number,
        Err(_) => 0,
    }
}

/// Tells letters: the bookie of each, and what it is told.
fn tell_letters(out: &mut String, letters: &Letters) -> Result<(), NoMemory> {
    out.push_str("tells")?;
    for told in letters.as_slice() {
        let bookie = told.bookie.number();
        match &told.msg {
            Msg::AskLac { fence: true, .. } => write!(out, " {bookie}: fence")?,
            Msg::AskEntry { entry, .. } => write!(out, " {bookie}: ask {entry}")?,
            Msg::Copy { entry, count, .. } => write!(out, " {bookie}: copy {entry} {count}")?,
            _ => write!(out, " {bookie}: ?")?,
        }
    }
    Ok(())
}

/// Tells a turn.
fn tell_turn(out: &mut String, turn: &Turn<u64>) -> Result<(), NoMemory> {
    match turn {
        Turn::Wait => out.push_str("waits")?,
        Turn::Ask(_) => out.push_str("asks")?,
        Turn::Tell(letters) => tell_letters(out, letters)?,
        Turn::Done(count) => write!(out, "done {count}")?,
        Turn::Refused(_) => out.push_str("refused")?,
    }
    Ok(())
}

/// Tells how far a recovery has come.
fn tell_outcome(out: &mut String, outcome: Outcome) -> Result<(), NoMemory> {
    match outcome {
        Outcome::NotYet(Missing::Reply) => out.push_str(", lacks a reply")?,
        Outcome::NotYet(Missing::Cover(_)) => out.push_str(", lacks a cover")?,
        Outcome::NotYet(Missing::Entry(entry, _)) => write!(out, ", lacks entry {entry}")?,
        Outcome::Closed(count) => write!(out, ", closed at {count}")?,
        Outcome::Gone => out.push_str(", gone")?,
    }
    Ok(())
}

/// The node of the ledger in the state of a word, at version 3.
fn node(alloc: Global, word: &str) -> Result<OneAnswer, Fail> {
    let (state, count) = match word {
        "writing" => (LedgerState::Writing, 0),
        "recovering" => (LedgerState::Recovering, 0),
        _ => (LedgerState::Closed, 9),
    };
    let q = Quorum::new(4, 3, 2)?;
    let bytes = encode_ledger(alloc, &LedgerMeta { state, q, count })?;
    Ok(OneAnswer::Bytes {
        bytes: Body::from_vec(bytes)?,
        version: 3,
    })
}

/// The failure of a request by the reason of a word.
fn failure(word: &str) -> MetaAnswer {
    let why = match word {
        "moved" => Why::BadVersion(5),
        "gone" => Why::NoNode,
        _ => Why::Spent,
    };
    MetaAnswer::Failed { place: 0, why }
}

/// The count of a bookie.
fn count_told(fenced: bool, count: u64) -> Msg {
    Msg::LacIs {
        tag: 7,
        ledger: LEDGER,
        fenced,
        count,
    }
}

/// A bookie's denial of an entry.
fn denial(fenced: bool, entry: u64) -> Msg {
    Msg::NoEntry {
        tag: 7,
        ledger: LEDGER,
        entry,
        fenced,
    }
}

/// A bookie's word that it has copied an entry.
fn copied(entry: u64) -> Msg {
    Msg::CopyOk {
        tag: 7,
        ledger: LEDGER,
        entry,
    }
}

/// The bytes of an entry.
fn found(alloc: Global, entry: u64) -> Result<Msg, NoMemory> {
    Ok(Msg::EntryIs {
        tag: 7,
        ledger: LEDGER,
        entry,
        bytes: Bytes::copy_from_slice(alloc, b"xyz")?,
    })
}

/// The message of a verb with a number: a count or a denial, each with the fenced bit or without it, a copy, or an entry.
fn message(alloc: Global, verb: &str, number: u64) -> Result<Msg, NoMemory> {
    if verb == "entry" {
        return found(alloc, number);
    }
    if verb == "copied" {
        return Ok(copied(number));
    }
    if verb == "denied" || verb == "lacks" {
        return Ok(denial(verb == "denied", number));
    }
    Ok(count_told(verb == "fenced", number))
}

/// The reply that a line says: `node STATE`, `version`, or `fails WHY`.
fn reply(alloc: Global, verb: &str, rest: &str) -> Result<MetaAnswer, Fail> {
    if verb == "fails" {
        return Ok(failure(rest));
    }
    if verb == "version" {
        return Ok(MetaAnswer::One(OneAnswer::Version(4)));
    }
    Ok(MetaAnswer::One(node(alloc, rest)?))
}

/// What a line says: a reply, or a message `VERB BOOKIE NUMBER`.
fn heard(alloc: Global, line: &str) -> Result<Heard, Fail> {
    let (verb, rest) = cut(line);
    if verb == "node" || verb == "version" || verb == "fails" {
        return Ok(Heard::Reply(reply(alloc, verb, rest)?));
    }
    let (bookie, number) = cut(rest);
    let msg = message(alloc, verb, u64::from(number_of(number)))?;
    Ok(Heard::From(number_of(bookie), msg))
}

/// Tells what is known of the ledger's node.
fn tell_node(out: &mut String, node: Option<&LedgerMeta>) -> Result<(), NoMemory> {
    match node {
        Some(meta) => write!(out, "count {}", meta.count)?,
        None => out.push_str("unknown")?,
    }
    Ok(())
}

/// What a recovery does at what a line says; at the line `ledger`, what it knows of the node.
fn run(alloc: Global, recovery: &mut Recovery, line: &str) -> Result<String, Fail> {
    let mut out = String::new(alloc);
    if line == "ledger" {
        tell_node(&mut out, recovery.ledger())?;
        return Ok(out);
    }
    let turn = recovery.hear(&heard(alloc, line)?)?;
    tell_turn(&mut out, &turn)?;
    tell_outcome(&mut out, recovery.outcome())?;
    Ok(out)
}

/// What recoveries do at what they hear, with ensembles of four, write quorums of three and ack quorums of two.
fn rows() -> &'static str {
    "
# it marks, fences, reads on from the greatest confirmation, copies and closes
start
node writing => asks, lacks a reply
version => tells 4: fence 0: fence 1: fence 2: fence, lacks a cover
fenced 4 1 => waits, lacks a cover
open 0 9 => waits, lacks a cover
fenced 0 0 => waits, lacks a cover
fenced 1 0 => tells 0: ask 1 1: ask 1 2: ask 1, lacks entry 1
denied 0 1 => waits, lacks entry 1
denied 0 1 => waits, lacks entry 1
lacks 1 1 => waits, lacks entry 1
entry 1 2 => waits, lacks entry 1
entry 1 1 => tells 0: copy 1 1 1: copy 1 1 2: copy 1 1, lacks entry 1
copied 1 1 => waits, lacks entry 1
copied 2 1 => tells 1: ask 2 2: ask 2 4: ask 2, lacks entry 2
denied 0 2 => waits, lacks entry 2
denied 1 2 => waits, lacks entry 2
denied 4 2 => asks, lacks a reply
version => done 2, closed at 2
ledger => count 2
# whoever comes second adopts what it finds
start
node recovering => tells 4: fence 0: fence 1: fence 2: fence, lacks a cover
start
node writing => asks, lacks a reply
fails moved => asks, lacks a reply
node closed => done 9, closed at 9
# the node is gone, or there is no way on
start
fails gone => refused, gone
ledger => unknown
start
fails full => refused, lacks a reply
"
}

/// A recovery of the ledger that has asked for its node.
fn new_recovery(alloc: Global) -> Result<Recovery, NoMemory> {
    let conf = Conf {
        b: 5,
        e: 3,
        qw: 3,
        qa: 2,
    };
    let (recovery, _turn) = Recovery::start(alloc, 7, LEDGER, conf)?;
    Ok(recovery)
}

#[test]
fn each_row_of_calls(rt: HostRuntime) -> Result<(), Fail> {
    let alloc = rt.alloc();
    let mut recovery = new_recovery(alloc)?;
    let mut count = 0u32;
    for row in rows().lines() {
        if row == "start" {
            recovery = new_recovery(alloc)?;
        }
        let Some((line, want)) = row.split_once(" => ") else {
            continue;
        };
        let told = run(alloc, &mut recovery, line)?;
        assert_eq!(rt; told.as_str(), want, "at {line}");
        count = count.saturating_add(1);
    }
    assert_eq!(rt; count, 25);
    Ok(())
}
