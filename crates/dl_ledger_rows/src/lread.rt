use bytes::Bytes;
use dl_lread::got::Got;
use dl_lread::reader::LedgerReader;
use dl_msg::letters::Letters;
use dl_msg::msg::Msg;
use dl_types::ensemble::Ensemble;
use dl_types::memory::NoMemory;
use dl_types::quorum::Quorum;
use std::alloc::Global;
use std::test::Fail;

/// The ledger of the tests: with five bookies its ensemble of four begins at the last one, so that the bookies of its
/// places are 4, 0, 1 and 2.
const LEDGER: u64 = 4;

/// What stands before the first space, and what stands after it.
fn cut(text: &str) -> (&str, &str) {
    text.split_once(' ').unwrap_or((text, ""))
}

/// The number of a word, or 0.
fn number_of(word: &str) -> u8 {
    match word.parse::<u8>() {
        Ok(number) => number,
        Err(_) => 0,
    }
}

/// Tells letters: the bookie of each, and what it is asked.
fn tell_letters(alloc: Global, letters: &Letters) -> Result<String, NoMemory> {
    let mut out = String::new(alloc);
    out.push_str("asks")?;
    for told in letters.as_slice() {
        let bookie = told.bookie.number();
        match &told.msg {
            Msg::AskLac { fence: false, .. } => write!(out, " {bookie}: count")?,
            Msg::AskEntry { entry, .. } => write!(out, " {bookie}: {entry}")?,
            _ => write!(out, " {bookie}: ?")?,
        }
    }
    Ok(out)
}

/// Tells what the reader has got.
fn tell_got(alloc: Global, got: &Got) -> Result<String, NoMemory> {
    let mut out = String::new(alloc);
    match got {
        Got::NotYet => out.push_str("nothing")?,
        Got::Lac(count) => write!(out, "count {count}")?,
        Got::Entry(bytes) => write!(out, "bytes {}", bytes.len())?,
    }
    Ok(out)
}

/// The message of a verb with a number: a count, a count of another ledger, a count under an older tag, or an entry's bytes.
fn message(alloc: Global, verb: &str, number: u64) -> Result<Msg, NoMemory> {
    if verb == "entry" {
        return Ok(Msg::EntryIs {
            tag: 7,
            ledger: LEDGER,
            entry: number,
            bytes: Bytes::copy_from_slice(alloc, b"xyz")?,
        });
    }
    Ok(Msg::LacIs {
        tag: if verb == "late" { 6 } else { 7 },
        ledger: if verb == "other" { 9 } else { LEDGER },
        fenced: false,
        count: number,
    })
}

/// What a line gives: `lac`, `ask ENTRY`, or a message `VERB BOOKIE NUMBER`.
fn run(alloc: Global, reader: &mut LedgerReader, line: &str) -> Result<String, NoMemory> {
    let (verb, rest) = cut(line);
    if verb == "lac" {
        return tell_letters(alloc, &reader.ask_lac()?);
    }
    if verb == "ask" {
        return tell_letters(alloc, &reader.ask(u64::from(number_of(rest)))?);
    }
    let (bookie, number) = cut(rest);
    let msg = message(alloc, verb, u64::from(number_of(number)))?;
    tell_got(alloc, &reader.hear(number_of(bookie), &msg)?)
}

/// Calls of one reader, with ensembles of four, write quorums of three and ack quorums of two, and after ` => ` what each
/// gives.
fn rows() -> &'static str {
    "
# the ensemble is asked, and the greatest count at the first cover counts
lac => asks 4: count 0: count 1: count 2: count
count 4 1 => nothing
count 4 3 => nothing
count 3 9 => nothing
other 1 9 => nothing
late 1 9 => nothing
count 0 0 => nothing
count 1 2 => count 3
count 2 9 => count 3
# an entry is asked of its write set, and its first bytes count
ask 1 => asks 0: 1 1: 1 2: 1
count 4 9 => nothing
entry 4 1 => nothing
entry 0 2 => nothing
entry 2 1 => bytes 3
entry 0 1 => bytes 3
# who answered before doesn't count anew
lac => asks 4: count 0: count 1: count 2: count
count 2 0 => nothing
count 1 0 => nothing
count 4 0 => count 0
"
}

#[test]
fn each_row_of_calls(rt: HostRuntime) -> Result<(), Fail> {
    let alloc = rt.alloc();
    let q = Quorum::new(4, 3, 2)?;
    let mut reader = LedgerReader::start(alloc, 7, LEDGER, q, Ensemble::of(LEDGER, 5, 4))?;
    let mut count = 0u32;
    for row in rows().lines() {
        let Some((line, want)) = row.split_once(" => ") else {
            continue;
        };
        let told = run(alloc, &mut reader, line)?;
        assert_eq!(rt; told.as_str(), want, "at {line}");
        count = count.saturating_add(1);
    }
    assert_eq!(rt; count, 19);
    Ok(())
}
