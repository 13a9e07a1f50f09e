use dl_transcript::event::Event;
use dl_transcript::laws::{each_rule_binds, legal_goes_on};
use dl_transcript::print::{
    print_event, put_ack, put_event, put_grow, put_joined, put_sent, put_took, put_writer,
};
use dl_types::address::Address;
use dl_types::bookie::BookieId;
use dl_types::client::ClientId;
use dl_types::dlsn::Dlsn;
use dl_types::memory::NoMemory;
use dl_types::name::Name;
use dl_types::path::Path;
use dl_types::payload::Payload;
use dl_types::read_row::{ReadRow, ReadRows};
use dl_types::refusal::Refusal;
use dl_types::row::Origin;
use dl_types::session::SessionId;
use dl_types::txid::{MAX_TXID, TxId};
use std::alloc::Global;
use std::test::Fail;

/// The line of the schedule on which all rows stand.
const LINE: u32 = 12;

const SESSIONS: &str = "\
12 joined 7 1
12 expired 18446744073709551615
12 created 7 log-1
12 removed 7 log-1
12 released 7 log-1
12 whole 7 log-1
12 mail c7 b15 3
12 mail b15 c7 1
12 mail m c7 4294967295
12 mail c7 m 2
12 none
";

const WRITERS: &str = "\
12 writer 7 log-1 2
12 took 7 1 log-1 9223372036854775807 -
12 took 7 2 log-1 0 00ff
12 sent 7 2:3
12 grow log-1 2:3:4 0 7 2 00ff
12 ack 7 2 2:3:4
12 committed log-1 2:3:4
12 closed log-1 2
";

const POINTS: &str = "\
12 recovered 7 log-1 2:3:4
12 point log-1 2:3:4
12 truncated 7 log-1 2:3:4
12 purged 7 log-1 0
";

const READERS: &str = "\
12 opened 7 log-1 2:3:4
12 opened 7 log-1 txid 5
12 reading 7 log-1
12 end 7 log-1
12 rows 7 log-1 2:3:4/5/-
12 rows 7 log-1 2:3:4/5/61 2:3:4/5/- 2:3:4/5/6263
";

const REFUSALS: &str = "\
12 refused 7 expired 1
12 refused 7 held 9
12 refused 7 fenced 15
12 refused 7 moved /a/b 3
12 refused 7 nostream
12 refused 7 streamexists
12 refused 7 txidback 9 8
12 refused 7 toolong 1040385
12 refused 7 beyondend 2:3:4
12 refused 7 nowriter
12 refused 7 truncated 2:3:4
12 refused 7 notempty 9
12 refused 7 busy 9
12 refused 7 windowfull
12 refused 7 gaveup /
";

fn client() -> ClientId {
    ClientId::new(7)
}

fn place() -> Dlsn {
    Dlsn {
        segment: 2,
        entry: 3,
        slot: 4,
    }
}

/// Record `call` of the client.
fn origin(call: u32) -> Origin {
    let client = client();
    Origin { client, call }
}

/// A row as it is read.
fn read(alloc: Global, txid: TxId, payload: &[u8]) -> Result<ReadRow, NoMemory> {
    let payload = Payload::new(alloc, payload)?;
    Ok(ReadRow {
        place: place(),
        txid,
        payload,
    })
}

fn put(out: &mut Vec<u8>, event: Event) -> Result<(), NoMemory> {
    put_event(out, LINE, &event)
}

/// The client's end of a link.
fn here() -> Address {
    Address::Client(client())
}

/// A storage node's end of a link.
fn bookie() -> Address {
    Address::Bookie(BookieId::new(15))
}

fn put_mail(out: &mut Vec<u8>, from: Address, to: Address, count: u32) -> Result<(), NoMemory> {
    put(out, Event::Mail { from, to, count })
}

#[test]
fn sessions_and_links(rt: HostRuntime) -> Result<(), Fail> {
    let client = client();
    let name = Name::new(rt.alloc(), b"log-1")?;
    let mut out = Vec::new(rt.alloc());
    let session = SessionId::new(1);
    put_joined(&mut out, LINE, client, session)?;
    let session = SessionId::new(u64::MAX);
    put(&mut out, Event::Expired { session })?;
    let stream = name.share()?;
    put(&mut out, Event::Created { client, stream })?;
    let stream = name.share()?;
    put(&mut out, Event::Removed { client, stream })?;
    let stream = name.share()?;
    put(&mut out, Event::Released { client, stream })?;
    let stream = name.share()?;
    put(&mut out, Event::Whole { client, stream })?;
    put_mail(&mut out, here(), bookie(), 3)?;
    put_mail(&mut out, bookie(), here(), 1)?;
    put_mail(&mut out, Address::Meta, here(), u32::MAX)?;
    put_mail(&mut out, here(), Address::Meta, 2)?;
    put(&mut out, Event::Nothing)?;
    assert_eq!(rt; out.as_slice(), SESSIONS.as_bytes());
    Ok(())
}

#[test]
fn writers_and_segments(rt: HostRuntime) -> Result<(), Fail> {
    let alloc = rt.alloc();
    let (client, segment, place) = (client(), 2, place());
    let name = Name::new(alloc, b"log-1")?;
    let (least, payload) = (TxId::new(0), &[0, 0xff]);
    let mut out = Vec::new(alloc);
    put_writer(&mut out, LINE, client, &name, segment)?;
    put_took(&mut out, LINE, origin(1), &name, TxId::new(MAX_TXID), b"")?;
    put_took(&mut out, LINE, origin(2), &name, least, payload)?;
    put_sent(&mut out, LINE, client, segment, 3)?;
    put_grow(&mut out, LINE, &name, place, least, origin(2), payload)?;
    put_ack(&mut out, LINE, origin(2), place)?;
    let stream = name.share()?;
    put(&mut out, Event::Committed { stream, place })?;
    let stream = name.share()?;
    put(&mut out, Event::Closed { stream, segment })?;
    assert_eq!(rt; out.as_slice(), WRITERS.as_bytes());
    Ok(())
}

#[test]
fn recoveries_and_points(rt: HostRuntime) -> Result<(), Fail> {
    let (client, place, count) = (client(), place(), 0);
    let name = Name::new(rt.alloc(), b"log-1")?;
    let mut out = Vec::new(rt.alloc());
    let stream = name.share()?;
    put(
        &mut out,
        Event::Recovered {
            client,
            stream,
            place,
        },
    )?;
    let stream = name.share()?;
    put(&mut out, Event::Point { stream, place })?;
    let stream = name.share()?;
    put(
        &mut out,
        Event::Truncated {
            client,
            stream,
            place,
        },
    )?;
    let stream = name.share()?;
    put(
        &mut out,
        Event::Purged {
            client,
            stream,
            count,
        },
    )?;
    assert_eq!(rt; out.as_slice(), POINTS.as_bytes());
    Ok(())
}

#[test]
fn readers_and_rows(rt: HostRuntime) -> Result<(), Fail> {
    let alloc = rt.alloc();
    let (client, place, txid) = (client(), place(), TxId::new(5));
    let name = Name::new(alloc, b"log-1")?;
    let mut out = Vec::new(alloc);
    let stream = name.share()?;
    put(
        &mut out,
        Event::OpenedAt {
            client,
            stream,
            place,
        },
    )?;
    let stream = name.share()?;
    put(
        &mut out,
        Event::OpenedFrom {
            client,
            stream,
            txid,
        },
    )?;
    let stream = name.share()?;
    put(&mut out, Event::Reading { client, stream })?;
    let stream = name.share()?;
    put(&mut out, Event::End { client, stream })?;
    for payloads in [[b"".as_slice()].as_slice(), &[b"a", b"", b"bc"]] {
        let mut rows = ReadRows::new(alloc);
        for payload in payloads {
            rows.push(read(alloc, txid, payload)?)?;
        }
        let stream = name.share()?;
        put(
            &mut out,
            Event::Rows {
                client,
                stream,
                rows,
            },
        )?;
    }
    assert_eq!(rt; out.as_slice(), READERS.as_bytes());
    Ok(())
}

#[test]
fn refusals(rt: HostRuntime) -> Result<(), Fail> {
    let alloc = rt.alloc();
    let refusals = [
        Refusal::Expired {
            session: SessionId::new(1),
        },
        Refusal::Held { member: 9 },
        Refusal::Fenced {
            bookie: BookieId::new(15),
        },
        Refusal::Moved {
            path: Path::new(alloc, b"/a/b")?,
            version: 3,
        },
        Refusal::NoStream,
        Refusal::StreamExists,
        Refusal::TxidBack {
            last: TxId::new(9),
            given: TxId::new(8),
        },
        Refusal::TooLong { length: 1_040_385 },
        Refusal::BeyondEnd { end: place() },
        Refusal::NoWriter,
        Refusal::Truncated { point: place() },
        Refusal::NotEmpty { count: 9 },
        Refusal::Busy { line: 9 },
        Refusal::WindowFull,
        Refusal::GaveUp {
            path: Path::new(alloc, b"/")?,
        },
    ];
    let mut out = Vec::new(alloc);
    for refusal in refusals {
        let client = client();
        put(&mut out, Event::Refused { client, refusal })?;
    }
    assert_eq!(rt; out.as_slice(), REFUSALS.as_bytes());
    Ok(())
}

#[test]
fn an_event_is_printed_alone(rt: HostRuntime) -> Result<(), Fail> {
    let text = print_event(rt.alloc(), u32::MAX, &Event::Nothing)?;
    assert_eq!(rt; text.as_slice(), b"4294967295 none\n".as_slice());
    legal_goes_on();
    each_rule_binds();
    Ok(())
}
