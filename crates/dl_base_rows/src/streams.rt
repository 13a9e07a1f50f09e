// What no clause says: worked rows, the texts of the notes, and that the adapters over the system answer.
use dl_io::memory::{MemSink, MemSource};
use dl_io::notes::write_note;
use dl_io::standard::{NoteSink, StdSink, StdSource};
use dl_io::traits::{Sink, Source, WriteFailed};
use dl_types::limit::LimitName;
use dl_types::status::Status;
use std::test::Fail;

#[test]
fn a_source_fails_at_the_listed_call(rt: HostRuntime) -> Result<(), Fail> {
    let rows = [
        (1, [None, Some(2), Some(1), Some(0)]),
        (2, [Some(2), None, Some(1), Some(0)]),
        (3, [Some(2), Some(1), None, Some(0)]),
    ];
    for (number, counts) in rows {
        let bytes = Vec::from_slice(rt.alloc(), b"abc")?;
        let mut source = MemSource::new(bytes, vec![in rt.alloc(); number]?);
        let mut into = [0u8; 2];
        for count in counts {
            assert_eq!(rt; source.take(&mut into).ok(), count, "call {number} fails");
        }
        assert_eq!(rt; source.faults(), 1);
        assert_eq!(rt; source.left().len(), 0);
    }
    Ok(())
}

#[test]
fn a_sink_fails_at_the_listed_call(rt: HostRuntime) -> Result<(), Fail> {
    let rows = [
        (1, [None, Some(1)], true, b"c".as_slice(), 1),
        (2, [Some(2), None], true, b"ab".as_slice(), 2),
        (3, [Some(2), Some(1)], false, b"abc".as_slice(), 0),
    ];
    for (number, [first, second], is_finished, held, finished) in rows {
        let mut sink = MemSink::new(rt.alloc(), vec![in rt.alloc(); number]?)?;
        assert_eq!(rt; sink.give(b"ab").ok(), first, "call {number} fails");
        assert_eq!(rt; sink.give(b"c").ok(), second, "call {number} fails");
        assert_eq!(rt; sink.finish().is_ok(), is_finished, "call {number} fails");
        assert_eq!(rt; sink.bytes(), held, "call {number} fails");
        assert_eq!(rt; sink.finished(), finished, "call {number} fails");
        assert_eq!(rt; sink.faults(), 1);
    }
    Ok(())
}

#[test]
fn notes_the_texts_of_statuses(rt: HostRuntime) -> Result<(), Fail> {
    let lines = Status::Limit {
        name: LimitName::Lines,
        number: 4096,
    };
    let schedule = Status::Limit {
        name: LimitName::Schedule,
        number: 18_446_744_073_709_551_615,
    };
    let rows = [
        (Status::Ok, b"".as_slice()),
        (
            Status::Usage { place: 2 },
            b"dlog: usage: word 2\n".as_slice(),
        ),
        (
            Status::BadSchedule {
                line: 7,
                column: 12,
            },
            b"dlog: bad schedule: line 7 column 12\n".as_slice(),
        ),
        (Status::ReadFault, b"dlog: read fault\n".as_slice()),
        (Status::WriteFault, b"dlog: write fault\n".as_slice()),
        (lines, b"dlog: limit: lines 4096\n".as_slice()),
        (
            schedule,
            b"dlog: limit: schedule 18446744073709551615\n".as_slice(),
        ),
        (Status::NoMemory, b"dlog: no memory\n".as_slice()),
    ];
    for (status, text) in rows {
        let mut notes = MemSink::new(rt.alloc(), Vec::new(rt.alloc()))?;
        write_note(&mut notes, &status);
        assert_eq!(rt; notes.bytes(), text);
        assert_eq!(rt; notes.finished(), text.len());
        assert_eq!(rt; notes.faults(), 0);
    }
    Ok(())
}

#[test]
fn a_note_stops_at_the_first_fault(rt: HostRuntime) -> Result<(), Fail> {
    let mut notes = MemSink::new(rt.alloc(), vec![in rt.alloc(); 2]?)?;
    write_note(&mut notes, &Status::Usage { place: 2 });
    assert_eq!(rt; notes.bytes(), b"dlog: ".as_slice());
    assert_eq!(rt; notes.finished(), 0);
    assert_eq!(rt; notes.faults(), 1);
    Ok(())
}

#[test]
fn the_standard_streams_answer(rt: HostRuntime) -> Result<(), Fail> {
    let mut source = StdSource::new(rt);
    assert_eq!(rt; source.take(&mut [])?, 0);

    let mut sink = StdSink::new(rt);
    assert_eq!(rt; sink.give(b"")?, 0);
    assert_eq!(rt; sink.give(b"\n")?, 1);
    sink.finish()?;

    let mut notes = NoteSink::new(rt);
    assert_eq!(rt; notes.give(b"")?, 0);
    assert_eq!(rt; notes.give(b"note\n")?, 5);
    assert_eq!(rt; notes.give(b"\xff"), Err(WriteFailed));
    notes.finish()?;
    Ok(())
}
