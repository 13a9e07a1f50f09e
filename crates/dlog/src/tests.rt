ghost use Rattle.std.specs.Prelude.{None};

use crate::arguments::read_words;
use crate::program::{exit_code, program};
use dl_io::memory::{MemSink, MemSource};
use dl_io::traits::{ReadFailed, Source};
use dl_transcript::event::Event;
use dl_transcript::print::print_event;
use dl_types::client::{ClientId, MAX_CLIENT};
use dl_types::dlsn::Dlsn;
use dl_types::limit::LimitName;
use dl_types::memory::NoMemory;
use dl_types::name::Name;
use dl_types::payload::Payload;
use dl_types::status::Status;
use dl_types::txid::{MAX_TXID, TxId};
use dl_types::word::Word;
use std::alloc::Global;
use std::process::{Abort, ExitCode};
use std::test::Fail;

/// The six lines that open a stream, and what they print.
const OPENING: &[u8] = b"setup 3 3 3 2\njoin 0\ncreate 0 s\nsettle\nopen 0 s\nsettle\n";

const OPENED: &[u8] = b"2 joined 0 1\n4 created 0 s\n6 writer 0 s 1\n";

/// How a run ended, what its sink holds finished, and its note.
#[derive(Drop)]
struct Done {
    status: Status,
    given: Vec<u8>,
    note: Vec<u8>,
}

/// Runs the program with these words over a source and a sink that fails at the listed calls.
fn run_with<S: Source>(
    alloc: Global,
    words: Result<Vec<Word>, NoMemory>,
    source: &mut S,
    sink_failing: &[u64],
) -> Result<Done, Fail> {
    let mut sink = MemSink::new(alloc, sink_failing.to_vec(alloc)?)?;
    let mut notes = MemSink::new(alloc, Vec::new(alloc))?;
    let status = program(alloc, words, source, &mut sink, &mut notes);
    let finished = sink.finished().min(sink.bytes().len());
    Ok(Done {
        status,
        given: sink.bytes()[..finished].to_vec(alloc)?,
        note: notes.bytes().to_vec(alloc)?,
    })
}

/// The words of these texts.
fn words_of(alloc: Global, texts: &[&str]) -> Result<Vec<Word>, NoMemory> {
    let mut words = Vec::new(alloc);
    for text in texts {
        words.push(Word::new(alloc, text)?)?;
    }
    Ok(words)
}

/// Replays a schedule whose source and sink fail at the listed calls.
fn replay_failing(
    alloc: Global,
    schedule: &[u8],
    source_failing: &[u64],
    sink_failing: &[u64],
) -> Result<Done, Fail> {
    let words = words_of(alloc, &["replay"]);
    let mut source = MemSource::new(schedule.to_vec(alloc)?, source_failing.to_vec(alloc)?);
    run_with(alloc, words, &mut source, sink_failing)
}

/// Some lines behind the six that open a stream.
fn opened_and(alloc: Global, lines: &[u8]) -> Result<Vec<u8>, Fail> {
    let mut schedule = OPENING.to_vec(alloc)?;
    schedule.extend_from_slice(lines)?;
    Ok(schedule)
}

/// So many times this text.
fn repeated(alloc: Global, text: &[u8], count: usize) -> Result<Vec<u8>, Fail> {
    let mut all = Vec::new(alloc);
    for _ in 0..count {
        all.extend_from_slice(text)?;
    }
    Ok(all)
}

/// So many times this byte. Its count is no literal, so that no proof sees so long a list.
fn filled(alloc: Global, byte: u8, count: usize) -> Result<Vec<u8>, Fail> {
    let bytes = vec![in alloc; byte; count]?;
    Ok(bytes)
}

/// A line that appends so many bytes `a`.
fn append_line(alloc: Global, bytes: usize) -> Result<Vec<u8>, Fail> {
    let mut line = Vec::from_slice(alloc, b"append 0 1 ")?;
    line.extend_from_slice(&repeated(alloc, b"61", bytes)?)?;
    line.push(b'\n')?;
    Ok(line)
}

/// A schedule runs to this status, prints this and notes this.
fn runs_to(
    rt: &impl Abort,
    alloc: Global,
    schedule: &[u8],
    status: Status,
    given: &[u8],
    note: &[u8],
) -> Result<(), Fail> {
    let done = replay_failing(alloc, schedule, &[], &[])?;
    assert_eq!(rt; done.status, status);
    assert_eq!(rt; done.given.as_slice(), given);
    assert_eq!(rt; done.note.as_slice(), note);
    Ok(())
}

/// These lines, behind those that open a stream, run to a good end and show this.
fn shows(rt: &impl Abort, alloc: Global, lines: &[u8], shown: &[u8]) -> Result<(), Fail> {
    let mut given = OPENED.to_vec(alloc)?;
    given.extend_from_slice(shown)?;
    runs_to(
        rt,
        alloc,
        &opened_and(alloc, lines)?,
        Status::Ok,
        &given,
        b"",
    )
}

/// What these lines show, behind those that open a stream, ends so.
fn shows_last(rt: &impl Abort, alloc: Global, lines: &[u8], end: &[u8]) -> Result<(), Fail> {
    let done = replay_failing(alloc, &opened_and(alloc, lines)?, &[], &[])?;
    assert_eq!(rt; done.status, Status::Ok);
    assert!(rt; done.given.as_slice().ends_with(end));
    Ok(())
}

/// With calls that fail so a replay ends with this status, prints so many bytes and notes this.
fn fails_at(
    rt: &impl Abort,
    alloc: Global,
    source_failing: &[u64],
    sink_failing: &[u64],
    status: Status,
    given: usize,
    note: &[u8],
) -> Result<(), Fail> {
    let lines = opened_and(alloc, b"append 0 5 6869\n")?;
    let done = replay_failing(alloc, &lines, source_failing, sink_failing)?;
    assert_eq!(rt; done.status, status);
    assert_eq!(rt; done.given.len(), given);
    assert_eq!(rt; done.note.as_slice(), note);
    Ok(())
}

/// No command goes on at the word of this place.
fn refuses(rt: &impl Abort, alloc: Global, texts: &[&str], place: u64) -> Result<(), Fail> {
    let mut source = MemSource::new(OPENING.to_vec(alloc)?, Vec::new(alloc));
    let done = run_with(alloc, words_of(alloc, texts), &mut source, &[])?;
    assert_eq!(rt; done.status, Status::Usage { place });
    assert_eq!(rt; source.left(), OPENING);
    Ok(())
}

#[test]
fn lines_print_what_they_show(rt: HostRuntime) -> Result<(), Fail> {
    let alloc = rt.alloc();
    runs_to(&rt, alloc, b"", Status::Ok, b"", b"")?;
    shows(&rt, alloc, b"", b"")?;
    shows(
        &rt,
        alloc,
        b"append 0 5 6869\nflush 0\nsettle\n",
        b"7 took 0 1 s 5 6869\n8 sent 0 1:0\n9 grow s 1:0:0 5 0 1 6869\n9 ack 0 1 1:0:0\n",
    )?;
    shows(
        &rt,
        alloc,
        b"append 0 1 -\nflush 0\nsettle\n",
        b"7 took 0 1 s 1 -\n8 sent 0 1:0\n9 grow s 1:0:0 1 0 1 -\n9 ack 0 1 1:0:0\n",
    )?;
    shows(
        &rt,
        alloc,
        b"append 0 5 61\nappend 0 5 62\nappend 0 4 63\n",
        b"7 took 0 1 s 5 61\n8 took 0 2 s 5 62\n9 refused 0 txidback 5 4\n",
    )?;
    shows(
        &rt,
        alloc,
        b"flush 0\nsettle\nflush 0\n",
        b"7 none\n9 none\n",
    )
}

#[test]
fn two_entries_are_confirmed_in_order(rt: HostRuntime) -> Result<(), Fail> {
    shows(
        &rt,
        rt.alloc(),
        b"append 0 0 61\nappend 0 9223372036854775807 62\nflush 0\nappend 0 9223372036854775807 63\nflush 0\nsettle\n",
        b"7 took 0 1 s 0 61\n8 took 0 2 s 9223372036854775807 62\n9 sent 0 1:0\n10 took 0 3 s 9223372036854775807 63\n11 sent 0 1:1\n12 grow s 1:0:0 0 0 1 61\n12 grow s 1:0:1 9223372036854775807 0 2 62\n12 ack 0 1 1:0:0\n12 ack 0 2 1:0:1\n12 grow s 1:1:0 9223372036854775807 0 3 63\n12 ack 0 3 1:1:0\n",
    )
}

#[test]
fn full_entries_and_windows_are_kept(rt: HostRuntime) -> Result<(), Fail> {
    let alloc = rt.alloc();
    shows_last(
        &rt,
        alloc,
        &repeated(alloc, b"append 0 1 61\nflush 0\n", 65)?,
        b"134 sent 0 1:63\n135 took 0 65 s 1 61\n136 refused 0 windowfull\n",
    )?;

    let too_long = append_line(alloc, 1_040_385)?;
    shows(&rt, alloc, &too_long, b"7 refused 0 toolong 1040385\n")?;

    // 28 and 1,040,384 bytes leave room for 8,164 more, so that both small records fit.
    let mut long = append_line(alloc, 1_040_384)?;
    long.extend_from_slice(b"append 0 2 62\nappend 0 3 63\n")?;
    shows_last(
        &rt,
        alloc,
        &long,
        b"61\n8 took 0 2 s 2 62\n9 took 0 3 s 3 63\n",
    )?;

    // 8, and 20 with 600,000, and 20 with 448,528 bytes are 1,048,576, which is all that an entry has.
    let mut full = append_line(alloc, 600_000)?;
    full.extend_from_slice(&append_line(alloc, 448_528)?)?;
    full.extend_from_slice(b"append 0 1 -\n")?;
    shows_last(&rt, alloc, &full, b"61\n9 sent 0 1:0\n9 took 0 3 s 1 -\n")
}

#[test]
fn faults_end_a_replay(rt: HostRuntime) -> Result<(), Fail> {
    let alloc = rt.alloc();
    let read = b"dlog: read fault\n";
    let write = b"dlog: write fault\n";
    fails_at(&rt, alloc, &[1], &[], Status::ReadFault, 0, read)?;
    fails_at(&rt, alloc, &[2], &[], Status::ReadFault, 0, read)?;
    fails_at(&rt, alloc, &[3], &[], Status::Ok, 62, b"")?;
    fails_at(&rt, alloc, &[], &[1], Status::WriteFault, 0, write)?;
    fails_at(&rt, alloc, &[], &[2], Status::WriteFault, 0, write)?;
    fails_at(&rt, alloc, &[], &[3], Status::Ok, 62, b"")?;
    fails_at(&rt, alloc, &[2], &[1], Status::ReadFault, 0, read)
}

#[test]
fn words_are_read(rt: HostRuntime) -> Result<(), Fail> {
    let alloc = rt.alloc();
    let _words = read_words(&rt, alloc)?;
    refuses(&rt, alloc, &[], 1)?;
    refuses(&rt, alloc, &[""], 1)?;
    refuses(&rt, alloc, &["replays"], 1)?;
    refuses(&rt, alloc, &["replay", "replay"], 2)?;
    refuses(&rt, alloc, &["replay", "", "x"], 2)?;
    refuses(&rt, alloc, &["check", "x"], 1)?;
    let mut source = MemSource::new(OPENING.to_vec(alloc)?, Vec::new(alloc));
    let done = run_with(alloc, Err(NoMemory), &mut source, &[])?;
    assert_eq!(rt; exit_code(done.status), ExitCode::from(13));
    assert_eq!(rt; done.note.as_slice(), b"dlog: no memory\n".as_slice());
    Ok(())
}

#[test]
fn bad_lines_are_refused(rt: HostRuntime) -> Result<(), Fail> {
    let alloc = rt.alloc();
    let bad = |line: u64, column: u64| Status::BadSchedule { line, column };
    runs_to(
        &rt,
        alloc,
        b"setup 3 3 3 2\njoin 0",
        bad(2, 7),
        b"",
        b"dlog: bad schedule: line 2 column 7\n",
    )?;
    runs_to(
        &rt,
        alloc,
        b"setup 3 3 3 3\n",
        bad(1, 13),
        b"",
        b"dlog: bad schedule: line 1 column 13\n",
    )?;
    runs_to(
        &rt,
        alloc,
        b"setup 3 3 3 2\njoin 1\nsettle\n",
        bad(2, 6),
        b"",
        b"dlog: bad schedule: line 2 column 6\n",
    )?;
    runs_to(
        &rt,
        alloc,
        b"setup 3 3 3 2\n\xff",
        bad(2, 1),
        b"",
        b"dlog: bad schedule: line 2 column 1\n",
    )?;
    runs_to(
        &rt,
        alloc,
        &opened_and(alloc, b"append 0 01 61\n")?,
        bad(7, 11),
        OPENED,
        b"dlog: bad schedule: line 7 column 11\n",
    )
}

#[test]
fn one_event_is_one_line(rt: HostRuntime) -> Result<(), Fail> {
    let alloc = rt.alloc();
    let event = Event::Grow {
        stream: Name::new(alloc, b"a_1-z")?,
        place: Dlsn {
            segment: u64::MAX,
            entry: 20,
            slot: u32::MAX,
        },
        txid: TxId::new(MAX_TXID),
        client: ClientId::new(MAX_CLIENT),
        call: 7,
        payload: Payload::new(alloc, b"\x00\xff")?,
    };
    let line = print_event(alloc, 1_000_000, &event)?;
    let want =
        b"1000000 grow a_1-z 18446744073709551615:20:4294967295 9223372036854775807 63 7 00ff\n";
    assert_eq!(rt; line.as_slice(), want.as_slice());
    Ok(())
}

/// A source that never ends.
#[derive(Drop)]
struct Endless;

impl Source for Endless {
    ghost view = { λ _. record { left = None; faults = 0 } };

    fn take(&mut self, into: &mut [u8]) -> Result<usize, ReadFailed> {
        for byte in into.iter_mut() {
            *byte = b'a';
        }
        Ok(into.len())
    }
}

/// The most lines of a schedule: those that open a stream, and others that show nothing.
fn all_lines(alloc: Global) -> Result<Vec<u8>, Fail> {
    opened_and(alloc, &repeated(alloc, b"settle\n", 999_994)?)
}

#[test]
fn lines_past_the_limit_end_a_replay(rt: HostRuntime) -> Result<(), Fail> {
    let alloc = rt.alloc();
    let mut lines = all_lines(alloc)?;
    runs_to(&rt, alloc, &lines, Status::Ok, OPENED, b"")?;

    // A further line is one too many, also where it ends past the limit on bytes.
    lines.extend_from_slice(&filled(alloc, b'x', 10_000_000)?)?;
    let name = LimitName::Lines;
    let number = 1_000_000;
    let limit = Status::Limit { name, number };
    let note = b"dlog: limit: lines 1000000\n";
    runs_to(&rt, alloc, &lines, limit, OPENED, note)
}

#[test]
fn bytes_past_the_limit_end_a_replay(rt: HostRuntime) -> Result<(), Fail> {
    let alloc = rt.alloc();
    // The byte past the limit on bytes comes before a line outside the grammar.
    let mut line = filled(alloc, b'x', 16_777_216)?;
    let bad = Status::BadSchedule { line: 1, column: 1 };
    let bad_note = b"dlog: bad schedule: line 1 column 1\n";
    runs_to(&rt, alloc, &line, bad, b"", bad_note)?;
    line.push(b'\n')?;
    let name = LimitName::Schedule;
    let number = 16_777_216;
    let limit = Status::Limit { name, number };
    let limit_note = b"dlog: limit: schedule 16777216\n";
    runs_to(&rt, alloc, &line, limit, b"", limit_note)
}

#[test]
fn sources_are_read_no_further_than_their_stop(rt: HostRuntime) -> Result<(), Fail> {
    let alloc = rt.alloc();
    let text = filled(alloc, b'\n', 200_000)?;
    let mut source = MemSource::new(text, Vec::new(alloc));
    let done = run_with(alloc, words_of(alloc, &["replay"]), &mut source, &[])?;
    assert_eq!(rt; done.status, Status::BadSchedule { line: 1, column: 1 });
    assert_eq!(rt; source.left().len(), 200_000 - 65_536);

    let endless = run_with(alloc, words_of(alloc, &["replay"]), &mut Endless, &[])?;
    assert_eq!(rt; exit_code(endless.status), ExitCode::from(12));
    Ok(())
}
