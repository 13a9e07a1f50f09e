ghost use Rattle.std.specs.Prelude.{◌≡◌, ◌≤◌};

use dl_lwrite::writer::LedgerWriter;
use dl_msg::letters::Letters;
use dl_msg::msg::Msg;
use dl_types::bookie::BookieId;
use dl_types::client::ClientId;
use dl_types::ensemble::Ensemble;
use dl_types::memory::NoMemory;
use dl_types::payload::Payload;
use dl_types::quorum::Quorum;
use dl_types::refusal::Refusal;
use dl_types::row::Origin;
use dl_types::txid::TxId;
use dl_writer::acked::{Acked, Spots};
use dl_writer::write_fault::WriteFault;
use dl_writer::writer::LogWriter;
use dl_writer::writer_state::WriterState;
use std::alloc::Global;
use std::process::Abort;
use std::test::Fail;

/// A writer of segment 3, behind the id 4, whose ledger is that of number 7 with three bookies, which each get every entry and two of
/// which confirm it.
fn new_writer(alloc: Global) -> Result<LogWriter, Fail> {
    let q = Quorum::new(3, 3, 2)?;
    let ledger = LedgerWriter::start(alloc, 7, q, Ensemble::of(7, 3, 3))?;
    Ok(LogWriter::start(alloc, 3, TxId::new(4), ledger)?)
}

/// What stands before the first space, and what stands after it.
fn cut(text: &str) -> (&str, &str) {
    text.split_once(' ').unwrap_or((text, ""))
}

/// The number of a word, or 0.
fn number_of(word: &str) -> u16 {
    match word.parse::<u16>() {
        Ok(number) => number,
        Err(_) => 0,
    }
}

fn tell_letters(out: &mut String, letters: &Letters) -> Result<(), NoMemory> {
    for told in letters.as_slice() {
        let bookie = told.bookie.number();
        if let Msg::Add {
            entry,
            count,
            bytes,
            ..
        } = &told.msg
        {
            let len = bytes.len();
            write!(out, " {bookie}<{entry}/{count}/{len}")?;
        }
    }
    Ok(())
}

fn tell_refusal(out: &mut String, refusal: &Refusal) -> Result<(), NoMemory> {
    match refusal {
        Refusal::NoWriter => out.push_str(" no writer")?,
        Refusal::Fenced { bookie } => {
            let bookie = bookie.number();
            write!(out, " fenced {bookie}")?;
        }
        Refusal::TooLong { length } => write!(out, " too long {length}")?,
        Refusal::TxidBack { .. } => out.push_str(" back")?,
        Refusal::WindowFull => out.push_str(" window full")?,
        _ => out.push_str(" other")?,
    }
    Ok(())
}

fn tell_answer(out: &mut String, answer: Result<Letters, WriteFault>) -> Result<(), NoMemory> {
    match answer {
        Ok(letters) => tell_letters(out, &letters),
        Err(WriteFault::Refused(refusal)) => tell_refusal(out, &refusal),
        Err(WriteFault::NoMemory) => Err(NoMemory),
    }
}

fn tell_spots(out: &mut String, spots: &Spots) -> Result<(), NoMemory> {
    for (origin, place) in spots.as_slice() {
        let call = origin.call;
        let entry = place.entry;
        let slot = place.slot;
        write!(out, " {call}@{entry}.{slot}")?;
    }
    Ok(())
}

fn tell_acked(out: &mut String, acked: &Acked) -> Result<(), NoMemory> {
    let confirmed = acked.confirmed;
    write!(out, " {confirmed}")?;
    tell_spots(out, &acked.rows)?;
    tell_letters(out, &acked.letters)
}

fn tell_state(out: &mut String, state: WriterState) -> Result<(), NoMemory> {
    match state {
        WriterState::Open => out.push_str("; open")?,
        WriterState::Committing => out.push_str("; committing")?,
        WriterState::Committed(control) => write!(out, "; committed {control}")?,
        WriterState::Closing => out.push_str("; closing")?,
        WriterState::Closable {
            entries,
            rows,
            last,
        } => {
            let last = last.number();
            write!(out, "; closable {entries} {rows} {last}")?;
        }
        WriterState::Fenced(bookie) => write!(out, "; fenced {bookie}")?,
    }
    Ok(())
}

/// An origin with this number of a call.
fn origin(call: u16) -> Origin
    ensures { result.call ≡ call }
{
    Origin {
        client: ClientId::new(5),
        call: u32::from(call),
    }
}

/// Takes a set of two payloads, of one and two bytes.
fn take_pair(
    alloc: Global,
    writer: &mut LogWriter,
    out: &mut String,
    call: u16,
    txid: TxId,
) -> Result<(), NoMemory>
    requires rows { writer.old.draft.next ≤ 1000 }
    requires entries { writer.old.ledger.sent ≤ 1000 }
{
    let one = Payload::new(alloc, b"c")?;
    let two = Payload::new(alloc, b"de")?;
    let told = writer.append_set(origin(call), txid, &[one, two]);
    tell_answer(out, told)
}

/// So many bytes.
fn bytes_of(alloc: Global, len: usize) -> Result<Vec<u8>, NoMemory> {
    let bytes = vec![in alloc; 7; len]?;
    Ok(bytes)
}

/// Takes a record of so many bytes.
fn take_one(
    alloc: Global,
    writer: &mut LogWriter,
    out: &mut String,
    call: u16,
    txid: TxId,
    len: u16,
) -> Result<(), NoMemory>
    requires rows { writer.old.draft.next ≤ 1000 }
    requires entries { writer.old.ledger.sent ≤ 1000 }
{
    let payload = bytes_of(alloc, usize::from(len))?;
    let told = writer.append(origin(call), txid, &payload);
    tell_answer(out, told)
}

/// Sends what was taken, with a commit or a close behind it by the verb.
fn send(writer: &mut LogWriter, out: &mut String, verb: &str) -> Result<(), NoMemory>
    requires { writer.old.ledger.sent ≤ 1000 }
{
    let told = match verb {
        "commit" => writer.commit(),
        "close" => writer.close(),
        _ => writer.flush(),
    };
    tell_answer(out, told)
}

/// The answer of a bookie to an entry: it is stored, or the ledger is fenced.
fn answer_of(verb: &str, entry: u64) -> Msg {
    match verb {
        "ok" => Msg::AddOk { ledger: 7, entry },
        _ => Msg::AddFenced { ledger: 7, entry },
    }
}

/// The bookie of a number, of which there are three.
fn bookie_of(number: u16) -> BookieId {
    match number {
        0 => BookieId::new(0),
        1 => BookieId::new(1),
        _ => BookieId::new(2),
    }
}

/// Hears a message of a bookie.
fn hear(
    writer: &mut LogWriter,
    out: &mut String,
    bookie: BookieId,
    msg: &Msg,
) -> Result<(), NoMemory>
    requires { writer.old.ledger.sent ≤ 1000 }
{
    let acked = writer.hear(bookie, msg)?;
    tell_acked(out, &acked)
}

/// Gives a writer the call of a line, behind its verb.
fn give(
    alloc: Global,
    writer: &mut LogWriter,
    out: &mut String,
    verb: &str,
    words: &str,
) -> Result<(), NoMemory>
    requires rows { writer.old.draft.next ≤ 1000 }
    requires entries { writer.old.ledger.sent ≤ 1000 }
{
    let (first, rest) = cut(words);
    let (second, third) = cut(rest);
    let (call, number) = (number_of(first), u64::from(number_of(second)));
    match verb {
        "append" => take_one(
            alloc,
            writer,
            out,
            call,
            TxId::new(number),
            number_of(third),
        ),
        "set" => take_pair(alloc, writer, out, call, TxId::new(number)),
        "ok" | "fenced" => hear(writer, out, bookie_of(call), &answer_of(verb, number)),
        _ => send(writer, out, verb),
    }
}

/// What a line gives: `append CALL TXID LENGTH`, `set CALL TXID`, `flush`, `commit`, `close`, `ok BOOKIE ENTRY` or `fenced BOOKIE ENTRY`;
/// then the state.
fn run(alloc: Global, writer: &mut LogWriter, line: &str) -> Result<String, NoMemory> {
    if writer.rows() > 1000 || writer.entries() > 1000 {
        return Err(NoMemory);
    }
    let mut out = String::new(alloc);
    let (verb, words) = cut(line);
    give(alloc, writer, &mut out, verb, words)?;
    tell_state(&mut out, writer.state())?;
    Ok(out)
}

/// Calls of one writer, and behind ` =>` what each gives: letters as the bookie, and the entry, the confirmed count and the length
/// that they carry; rows that are confirmed as their call, entry and slot, behind the confirmed count; and the state.
fn rows() -> &'static str {
    "
# nothing is sent where nothing was taken, and an id that falls is refused
flush =>; open
append 1 5 2 =>; open
append 2 4 1 => back; open
# the members of a set take successive slots of one entry
set 2 5 =>; open
flush => 1<0/0/65 2<0/0/65 0<0/0/65; open
# the control entry waits until all that was sent is confirmed, and a record that comes meanwhile stays behind it
commit =>; committing
append 4 6 1 =>; committing
ok 0 0 => 0; committing
ok 1 0 => 1 1@0.0 2@0.1 3@0.2 2<1/1/28 0<1/1/28 1<1/1/28; committing
# an acknowledgement is told once
ok 2 0 => 1; committing
ok 1 1 => 1; committing
ok 2 1 => 2; committed 1
# the notice of a commit ends with the next call
flush => 0<2/2/29 1<2/2/29 2<2/2/29; open
close =>; closing
append 9 9 1 => no writer; closing
ok 0 2 => 2; closing
ok 1 2 => 3 4@2.0; closable 3 4 6
fenced 1 2 => 3; closable 3 4 6
flush => no writer; closable 3 4 6
"
}

/// Runs rows on a writer, and says how many there were.
fn run_rows(rt: &impl Abort, alloc: Global, rows: &str) -> Result<u32, Fail> {
    let mut writer = new_writer(alloc)?;
    let mut count = 0u32;
    for row in rows.lines() {
        let Some((line, want)) = row.split_once(" =>") else {
            continue;
        };
        let told = run(alloc, &mut writer, line)?;
        assert_eq!(rt; told.as_str(), want, "at {line}");
        count = count.saturating_add(1);
    }
    Ok(count)
}

#[test]
fn each_row_of_calls(rt: HostRuntime) -> Result<(), Fail> {
    let count = run_rows(&rt, rt.alloc(), rows())?;
    assert_eq!(rt; count, 19);
    Ok(())
}

/// A fence is named by the first bookie that told of it, and what was taken is not sent.
fn fenced_rows() -> &'static str {
    "
append 1 5 2 =>; open
fenced 2 0 => 0; fenced 2
fenced 1 0 => 0; fenced 2
append 2 9 1 => fenced 2; fenced 2
close => fenced 2; fenced 2
"
}

#[test]
fn names_the_first_fence(rt: HostRuntime) -> Result<(), Fail> {
    let count = run_rows(&rt, rt.alloc(), fenced_rows())?;
    assert_eq!(rt; count, 5);
    Ok(())
}

/// What taking payloads of these lengths gives, one after the other, and a flush behind them.
fn lengths(alloc: Global, lens: &[usize]) -> Result<String, Fail> {
    let mut writer = new_writer(alloc)?;
    let mut out = String::new(alloc);
    for len in lens {
        if writer.rows() > 1000 || writer.entries() > 1000 {
            return Err("many".into());
        }
        let payload = bytes_of(alloc, *len)?;
        tell_answer(&mut out, writer.append(origin(1), TxId::new(5), &payload))?;
        out.push(';')?;
    }
    if writer.entries() > 1000 {
        return Err("many".into());
    }
    tell_answer(&mut out, writer.flush())?;
    Ok(out)
}

/// An entry of exactly 1,048,576 bytes is taken whole; with a byte more the record goes into the next one.
#[test]
fn fills_an_entry(rt: HostRuntime) -> Result<(), Fail> {
    let alloc = rt.alloc();
    let told = lengths(alloc, &[1_040_384, 8_144])?;
    let want = ";; 1<0/0/1048576 2<0/0/1048576 0<0/0/1048576";
    assert_eq!(rt; told.as_str(), want);
    let told = lengths(alloc, &[1_040_384, 8_145])?;
    let want = "; 1<0/0/1040412 2<0/0/1040412 0<0/0/1040412; 2<1/0/8173 0<1/0/8173 1<1/0/8173";
    assert_eq!(rt; told.as_str(), want);
    let told = lengths(alloc, &[1_040_385])?;
    assert_eq!(rt; told.as_str(), " too long 1040385;");
    Ok(())
}

#[test]
fn keeps_the_last_entry(rt: HostRuntime) -> Result<(), Fail> {
    let alloc = rt.alloc();
    let mut writer = new_writer(alloc)?;
    assert!(rt; writer.last().is_none());
    let _told = run(alloc, &mut writer, "set 2 5")?;
    let _told = run(alloc, &mut writer, "flush")?;
    if let Some(sent) = writer.last() {
        assert_eq!(rt; sent.entry, 0);
        assert_eq!(rt; sent.rows.as_slice().len(), 2);
    }
    Ok(())
}
