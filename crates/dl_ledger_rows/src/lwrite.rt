use bytes::Bytes;
use dl_lwrite::send_fault::SendFault;
use dl_lwrite::writer::LedgerWriter;
use dl_msg::letters::{Letters, Told};
use dl_msg::msg::Msg;
use dl_types::ensemble::Ensemble;
use dl_types::memory::NoMemory;
use dl_types::quorum::Quorum;
use std::alloc::Global;
use std::test::Fail;

/// The ledger of the tests: with five bookies its ensemble of four begins at the last one, so that the bookies of its
/// places are 4, 0, 1 and 2.
const LEDGER: u64 = 4;

/// What stands before the first space, and what stands after it.
fn cut(text: &str) -> (&str, &str) {
    text.split_once(' ').unwrap_or((text, ""))
}

/// The number of a word, or 0.
fn number_of(word: &str) -> u8 {
    match word.parse::<u8>() {
        Ok(number) => number,
        Err(_) => 0,
    }
}

/// Tells a letter with an entry: the bookie, the number of the entry, and the confirmed count that it carries.
fn tell_letter(out: &mut String, told: &Told) -> Result<(), NoMemory> {
    let bookie = told.bookie.number();
    if let Msg::Add { entry, count, .. } = &told.msg {
        write!(out, " {bookie}: {entry} {count}")?;
    }
    Ok(())
}

fn tell_letters(out: &mut String, letters: &Letters) -> Result<(), NoMemory> {
    out.push_str("sent")?;
    for told in letters.as_slice() {
        tell_letter(out, told)?;
    }
    Ok(())
}

fn tell_stop(out: &mut String, stop: SendFault) -> Result<(), NoMemory> {
    match stop {
        SendFault::Fenced(bookie) => write!(out, "fenced {bookie}")?,
        SendFault::WindowFull => out.push_str("window full")?,
        SendFault::NoMemory => return Err(NoMemory),
    }
    Ok(())
}

/// Sends an entry of one byte, where the entries are few.
fn send(alloc: Global, writer: &mut LedgerWriter, out: &mut String) -> Result<(), NoMemory> {
    let bytes = Bytes::copy_from_slice(alloc, b"x")?;
    if writer.sent() >= 1000 {
        return Err(NoMemory);
    }
    match writer.send(bytes) {
        Ok((_, letters)) => tell_letters(out, &letters),
        Err(stop) => tell_stop(out, stop),
    }
}

/// The message of a verb: an entry is stored, an entry of another ledger is stored, or else the ledger is fenced.
fn message(verb: &str, entry: u64) -> Msg {
    if verb == "ok" {
        Msg::AddOk {
            ledger: LEDGER,
            entry,
        }
    } else if verb == "other" {
        Msg::AddOk { ledger: 9, entry }
    } else {
        Msg::AddFenced {
            ledger: LEDGER,
            entry,
        }
    }
}

/// Hears a message of a bookie on an entry.
fn hear(
    writer: &mut LedgerWriter,
    out: &mut String,
    verb: &str,
    rest: &str,
) -> Result<(), NoMemory> {
    let (bookie, entry) = cut(rest);
    let msg = message(verb, u64::from(number_of(entry)));
    let count = writer.hear(number_of(bookie), &msg);
    write!(out, "confirmed {count}")?;
    Ok(())
}

fn tell_close(out: &mut String, writer: &LedgerWriter) -> Result<(), NoMemory> {
    match writer.close() {
        Some(count) => write!(out, "closed at {count}")?,
        None => out.push_str("open")?,
    }
    Ok(())
}

fn tell_fence(out: &mut String, writer: &LedgerWriter) -> Result<(), NoMemory> {
    match writer.fenced() {
        Some(bookie) => write!(out, "fenced {bookie}")?,
        None => out.push_str("free")?,
    }
    Ok(())
}

/// What a line gives: `send`, `ok BOOKIE ENTRY`, `other BOOKIE ENTRY`, `fenced BOOKIE ENTRY`, `close` or `fence`.
fn run(alloc: Global, writer: &mut LedgerWriter, line: &str) -> Result<String, NoMemory> {
    let mut out = String::new(alloc);
    let (verb, rest) = cut(line);
    if verb == "send" {
        send(alloc, writer, &mut out)?;
    } else if verb == "close" {
        tell_close(&mut out, writer)?;
    } else if verb == "fence" {
        tell_fence(&mut out, writer)?;
    } else {
        hear(writer, &mut out, verb, rest)?;
    }
    Ok(out)
}

/// Calls of one writer, with ensembles of four, write quorums of three and ack quorums of two, and after ` => ` what each
/// gives. A letter is told as its bookie, its entry and the confirmed count that it carries.
fn rows() -> &'static str {
    "
# an entry goes to its write set, and an acknowledgement counts once
close => closed at 0
send => sent 4: 0 0 0: 0 0 1: 0 0
ok 4 0 => confirmed 0
ok 4 0 => confirmed 0
close => open
# it counts of the write set alone, of this ledger alone, and only once the entry is sent
ok 2 0 => confirmed 0
ok 3 0 => confirmed 0
other 0 0 => confirmed 0
ok 0 1 => confirmed 0
ok 1 0 => confirmed 1
ok 0 0 => confirmed 1
close => closed at 1
# entries go round the ensemble, and behind a hole none is confirmed
send => sent 0: 1 1 1: 1 1 2: 1 1
ok 2 1 => confirmed 1
send => sent 1: 2 1 2: 2 1 4: 2 1
send => sent 2: 3 1 4: 3 1 0: 3 1
ok 1 2 => confirmed 1
ok 4 2 => confirmed 1
ok 0 3 => confirmed 1
ok 0 1 => confirmed 3
# the first fence is named, and what was sent may still be confirmed
fence => free
fenced 2 3 => confirmed 3
fenced 3 3 => confirmed 3
fence => fenced 2
send => fenced 2
ok 4 3 => confirmed 4
close => closed at 4
"
}

/// A writer of the ledger with ensembles of four, write quorums of three and ack quorums of two.
fn new_writer(alloc: Global) -> Result<LedgerWriter, Fail> {
    let q = Quorum::new(4, 3, 2)?;
    let writer = LedgerWriter::start(alloc, LEDGER, q, Ensemble::of(LEDGER, 5, 4))?;
    Ok(writer)
}

#[test]
fn each_row_of_calls(rt: HostRuntime) -> Result<(), Fail> {
    let alloc = rt.alloc();
    let mut writer = new_writer(alloc)?;
    let mut count = 0u32;
    for row in rows().lines() {
        let Some((line, want)) = row.split_once(" => ") else {
            continue;
        };
        let told = run(alloc, &mut writer, line)?;
        assert_eq!(rt; told.as_str(), want, "at {line}");
        count = count.saturating_add(1);
    }
    assert_eq!(rt; count, 27);
    Ok(())
}

#[test]
fn keeps_a_window(rt: HostRuntime) -> Result<(), Fail> {
    let alloc = rt.alloc();
    let mut writer = new_writer(alloc)?;
    for _ in 0..64 {
        let _sent = run(alloc, &mut writer, "send")?;
    }
    let told = run(alloc, &mut writer, "send")?;
    assert_eq!(rt; told.as_str(), "window full");
    assert_eq!(rt; writer.sent(), 64);
    assert_eq!(rt; writer.confirmed(), 0);
    Ok(())
}
