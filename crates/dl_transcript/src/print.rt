ghost use Rattle.std.specs.Prelude.{◌≡◌, ◌++◌, OnOk, IfOk};
ghost use Rattle.dl_transcript.specs.Lines.{space, verb_of, print_origin, print_order, row_field, print_fields, print_event};
ghost use Rattle.dl_transcript.specs.Verbs.{verb_text};
ghost use Rattle.dl_text.specs.ListFields.{list_field};
ghost use Rattle.dl_text.specs.Numbers.{number};
ghost use Rattle.dl_schedule.specs.StepLines.{address_field};

use crate::event::Event;
use crate::verb::Verb;
use dl_text::field::{put_bytes, put_place, put_refusal};
use dl_text::hex::put_hex;
use dl_text::number::put_number;
use dl_text::word::Word;
use dl_types::address::Address;
use dl_types::client::ClientId;
use dl_types::dlsn::Dlsn;
use dl_types::memory::NoMemory;
use dl_types::name::Name;
use dl_types::read_row::ReadRow;
use dl_types::row::Origin;
use dl_types::session::SessionId;
use dl_types::txid::TxId;
use std::alloc::Global;

/// Puts the number of the line, and the first word of an event there.
#[inline]
fn put_verb(out: &mut Vec<u8>, line: u32, verb: Verb) -> Result<(), NoMemory>
    ensures { OnOk result (out.new.items ≡ out.old.items ++ (number space line ++ verb_text verb)) }
{
    put_number(out, b' ', u64::from(line))?;
    out.extend_from_slice(verb.text())?;
    Ok(())
}

fn put_client(out: &mut Vec<u8>, client: ClientId) -> Result<(), NoMemory>
    ensures { OnOk result (out.new.items ≡ out.old.items ++ number space client) }
{
    put_number(out, b' ', u64::from(client.number()))
}

/// Puts a client and the stream of its order, and the byte `end` behind them.
fn put_order(out: &mut Vec<u8>, client: ClientId, stream: &Name, end: u8) -> Result<(), NoMemory>
    ensures { OnOk result (out.new.items ≡ out.old.items ++ print_order client stream.now end) }
{
    put_client(out, client)?;
    put_bytes(out, end, stream.as_slice())
}

fn put_origin(
    out: &mut Vec<u8>,
    client: ClientId,
    call: u32,
    payload: &[u8],
) -> Result<(), NoMemory>
    ensures { OnOk result (out.new.items ≡ out.old.items ++ print_origin client call payload.now) }
{
    put_client(out, client)?;
    put_number(out, b' ', u64::from(call))?;
    put_hex(out, b'\n', payload)
}

/// Puts a row as it is read, and the byte `end` behind it.
fn put_row(out: &mut Vec<u8>, end: u8, row: &ReadRow) -> Result<(), NoMemory>
    ensures { OnOk result (out.new.items ≡ out.old.items ++ row_field end row.now) }
{
    put_place(out, b'/', row.place)?;
    put_number(out, b'/', row.txid.number())?;
    put_hex(out, end, row.payload.as_slice())
}

/// Puts rows, to the end of the line.
fn put_rows(out: &mut Vec<u8>, rows: &[ReadRow]) -> Result<(), NoMemory>
    ensures { OnOk result (out.new.items ≡ out.old.items ++ list_field row_field rows.now) }
{
    for (i, row) in rows.iter().enumerate() {
        let end = if i + 1 < rows.len() { b' ' } else { b'\n' };
        put_row(out, end, row)?;
    }
    Ok(())
}

/// Puts the address of a node, and the byte `end` behind it.
fn put_address(out: &mut Vec<u8>, end: u8, address: &Address) -> Result<(), NoMemory>
    ensures { OnOk result (out.new.items ≡ out.old.items ++ address_field end address.now) }
{
    match address {
        Address::Client(client) => {
            out.push(b'c')?;
            put_number(out, end, u64::from(client.number()))
        }
        Address::Bookie(bookie) => {
            out.push(b'b')?;
            put_number(out, end, u64::from(bookie.number()))
        }
        Address::Meta => {
            out.extend_from_slice(&[b'm', end])?;
            Ok(())
        }
    }
}

/// Puts what a line says behind the word `joined`.
fn put_joined_fields(
    out: &mut Vec<u8>,
    client: ClientId,
    session: SessionId,
) -> Result<(), NoMemory>
    ensures { OnOk result (out.new.items ≡ out.old.items
        ++ print_fields (Event.Joined client session)) }
{
    put_client(out, client)?;
    put_number(out, b'\n', session.number())
}

/// Puts what a line says behind the word `writer`.
fn put_writer_fields(
    out: &mut Vec<u8>,
    client: ClientId,
    stream: &Name,
    segment: u64,
) -> Result<(), NoMemory>
    ensures { OnOk result (out.new.items ≡ out.old.items
        ++ print_fields (Event.Writer client stream.now segment)) }
{
    put_order(out, client, stream, b' ')?;
    put_number(out, b'\n', segment)
}

/// Puts what a line says behind the word `sent`.
fn put_sent_fields(
    out: &mut Vec<u8>,
    client: ClientId,
    segment: u64,
    entry: u64,
) -> Result<(), NoMemory>
    ensures { OnOk result (out.new.items ≡ out.old.items
        ++ print_fields (Event.Sent client segment entry)) }
{
    put_client(out, client)?;
    put_number(out, b':', segment)?;
    put_number(out, b'\n', entry)
}

/// Puts what a line says behind the word `took`.
fn put_took_fields(
    out: &mut Vec<u8>,
    origin: Origin,
    stream: &Name,
    txid: TxId,
    payload: &[u8],
) -> Result<(), NoMemory>
    ensures { OnOk result (out.new.items ≡ out.old.items
        ++ print_fields (Event.Took origin.client origin.call stream.now txid payload.now)) }
{
    put_client(out, origin.client)?;
    put_number(out, b' ', u64::from(origin.call))?;
    put_bytes(out, b' ', stream.as_slice())?;
    put_number(out, b' ', txid.number())?;
    put_hex(out, b'\n', payload)
}

/// Puts what a line says behind the word `grow`.
fn put_grow_fields(
    out: &mut Vec<u8>,
    stream: &Name,
    place: Dlsn,
    txid: TxId,
    origin: Origin,
    payload: &[u8],
) -> Result<(), NoMemory>
    ensures { OnOk result (out.new.items ≡ out.old.items
        ++ print_fields (Event.Grow stream.now place txid origin.client origin.call payload.now)) }
{
    put_bytes(out, b' ', stream.as_slice())?;
    put_place(out, b' ', place)?;
    put_number(out, b' ', txid.number())?;
    put_origin(out, origin.client, origin.call, payload)
}

/// Puts what a line says behind the word `ack`.
fn put_ack_fields(out: &mut Vec<u8>, origin: Origin, place: Dlsn) -> Result<(), NoMemory>
    ensures { OnOk result (out.new.items ≡ out.old.items
        ++ print_fields (Event.Ack origin.client origin.call place)) }
{
    put_client(out, origin.client)?;
    put_number(out, b' ', u64::from(origin.call))?;
    put_place(out, b'\n', place)
}

fn verb_of(event: &Event) -> Verb
    ensures { result ≡ verb_of event.now }
{
    match event {
        Event::Joined { .. } => Verb::Joined,
        Event::Expired { .. } => Verb::Expired,
        Event::Created { .. } => Verb::Created,
        Event::Removed { .. } => Verb::Removed,
        Event::Released { .. } => Verb::Released,
        Event::Whole { .. } => Verb::Whole,
        Event::Writer { .. } => Verb::Writer,
        Event::Took { .. } => Verb::Took,
        Event::Sent { .. } => Verb::Sent,
        Event::Grow { .. } => Verb::Grow,
        Event::Ack { .. } => Verb::Ack,
        Event::Committed { .. } => Verb::Committed,
        Event::Closed { .. } => Verb::Closed,
        Event::Recovered { .. } => Verb::Recovered,
        Event::Point { .. } => Verb::Point,
        Event::Truncated { .. } => Verb::Truncated,
        Event::Purged { .. } => Verb::Purged,
        Event::OpenedAt { .. } => Verb::Opened,
        Event::OpenedFrom { .. } => Verb::Opened,
        Event::Reading { .. } => Verb::Reading,
        Event::End { .. } => Verb::End,
        Event::Rows { .. } => Verb::Rows,
        Event::Refused { .. } => Verb::Refused,
        Event::Mail { .. } => Verb::Mail,
        Event::Nothing => Verb::Nothing,
    }
}

/// Puts what a line says of an event behind its first word.
fn put_fields(out: &mut Vec<u8>, event: &Event) -> Result<(), NoMemory>
    ensures { OnOk result (out.new.items ≡ out.old.items ++ print_fields event.now) }
{
    match event {
        Event::Joined { client, session } => put_joined_fields(out, *client, *session),
        Event::Expired { session } => put_number(out, b'\n', session.number()),
        Event::Created { client, stream }
        | Event::Removed { client, stream }
        | Event::Released { client, stream }
        | Event::Whole { client, stream }
        | Event::Reading { client, stream }
        | Event::End { client, stream } => put_order(out, *client, stream, b'\n'),
        Event::Writer {
            client,
            stream,
            segment,
        } => put_writer_fields(out, *client, stream, *segment),
        Event::Took {
            client,
            call,
            stream,
            txid,
            payload,
        } => {
            let origin = Origin {
                client: *client,
                call: *call,
            };
            put_took_fields(out, origin, stream, *txid, payload.as_slice())
        }
        Event::Sent {
            client,
            segment,
            entry,
        } => put_sent_fields(out, *client, *segment, *entry),
        Event::Grow {
            stream,
            place,
            txid,
            client,
            call,
            payload,
        } => {
            let origin = Origin {
                client: *client,
                call: *call,
            };
            put_grow_fields(out, stream, *place, *txid, origin, payload.as_slice())
        }
        Event::Ack {
            client,
            call,
            place,
        } => {
            let origin = Origin {
                client: *client,
                call: *call,
            };
            put_ack_fields(out, origin, *place)
        }
        Event::Committed { stream, place } | Event::Point { stream, place } => {
            put_bytes(out, b' ', stream.as_slice())?;
            put_place(out, b'\n', *place)
        }
        Event::Closed { stream, segment } => {
            put_bytes(out, b' ', stream.as_slice())?;
            put_number(out, b'\n', *segment)
        }
        Event::Recovered {
            client,
            stream,
            place,
        }
        | Event::Truncated {
            client,
            stream,
            place,
        }
        | Event::OpenedAt {
            client,
            stream,
            place,
        } => {
            put_order(out, *client, stream, b' ')?;
            put_place(out, b'\n', *place)
        }
        Event::Purged {
            client,
            stream,
            count,
        } => {
            put_order(out, *client, stream, b' ')?;
            put_number(out, b'\n', *count)
        }
        Event::OpenedFrom {
            client,
            stream,
            txid,
        } => {
            put_order(out, *client, stream, b' ')?;
            out.extend_from_slice(b"txid ")?;
            put_number(out, b'\n', txid.number())
        }
        Event::Rows {
            client,
            stream,
            rows,
        } => {
            put_order(out, *client, stream, b' ')?;
            put_rows(out, rows.as_slice())
        }
        Event::Refused { client, refusal } => {
            put_client(out, *client)?;
            put_refusal(out, refusal)
        }
        Event::Mail { from, to, count } => {
            put_address(out, b' ', from)?;
            put_address(out, b' ', to)?;
            put_number(out, b'\n', u64::from(*count))
        }
        Event::Nothing => Ok(()),
    }
}

/// Puts the one spelling of an event at its line of the schedule at the end of a text: the number of the line, a space,
/// the event, LF. Want of memory leaves the text with some front of it, and then the text is of no more use.
pub fn put_event(out: &mut Vec<u8>, line: u32, event: &Event) -> Result<(), NoMemory>
    ensures { OnOk result (out.new.items ≡ out.old.items ++ print_event line event.now) }
{
    put_verb(out, line, verb_of(event))?;
    put_fields(out, event)
}

/// Puts the line that says that the client joined with this session, at its line of the schedule, without making the event.
/// After want of memory the text is of no more use, here and below.
pub fn put_joined(
    out: &mut Vec<u8>,
    line: u32,
    client: ClientId,
    session: SessionId,
) -> Result<(), NoMemory>
    ensures { OnOk result (out.new.items ≡ out.old.items
        ++ print_event line (Event.Joined client session)) }
{
    put_verb(out, line, Verb::Joined)?;
    put_joined_fields(out, client, session)
}

/// Puts the line that says that the client writes this segment of the stream.
pub fn put_writer(
    out: &mut Vec<u8>,
    line: u32,
    client: ClientId,
    stream: &Name,
    segment: u64,
) -> Result<(), NoMemory>
    ensures { OnOk result (out.new.items ≡ out.old.items
        ++ print_event line (Event.Writer client stream.now segment)) }
{
    put_verb(out, line, Verb::Writer)?;
    put_writer_fields(out, client, stream, segment)
}

/// Puts the line that says that the client's writer sent an entry of a segment to its bookies.
pub fn put_sent(
    out: &mut Vec<u8>,
    line: u32,
    client: ClientId,
    segment: u64,
    entry: u64,
) -> Result<(), NoMemory>
    ensures { OnOk result (out.new.items ≡ out.old.items
        ++ print_event line (Event.Sent client segment entry)) }
{
    put_verb(out, line, Verb::Sent)?;
    put_sent_fields(out, client, segment, entry)
}

/// Puts the line that says that a record was taken for the stream, without a copy of the payload.
pub fn put_took(
    out: &mut Vec<u8>,
    line: u32,
    origin: Origin,
    stream: &Name,
    txid: TxId,
    payload: &[u8],
) -> Result<(), NoMemory>
    ensures { OnOk result (out.new.items ≡ out.old.items ++ print_event line
        (Event.Took origin.client origin.call stream.now txid payload.now)) }
{
    put_verb(out, line, Verb::Took)?;
    put_took_fields(out, origin, stream, txid, payload)
}

/// Puts the line that says that the stream grew by a row, without a copy of the payload.
pub fn put_grow(
    out: &mut Vec<u8>,
    line: u32,
    stream: &Name,
    place: Dlsn,
    txid: TxId,
    origin: Origin,
    payload: &[u8],
) -> Result<(), NoMemory>
    ensures { OnOk result (out.new.items ≡ out.old.items ++ print_event line
        (Event.Grow stream.now place txid origin.client origin.call payload.now)) }
{
    put_verb(out, line, Verb::Grow)?;
    put_grow_fields(out, stream, place, txid, origin, payload)
}

/// Puts the line that says that the record at a place is acknowledged.
pub fn put_ack(out: &mut Vec<u8>, line: u32, origin: Origin, place: Dlsn) -> Result<(), NoMemory>
    ensures { OnOk result (out.new.items ≡ out.old.items
        ++ print_event line (Event.Ack origin.client origin.call place)) }
{
    put_verb(out, line, Verb::Ack)?;
    put_ack_fields(out, origin, place)
}

/// The one spelling of an event at its line of the schedule.
pub fn print_event(alloc: Global, line: u32, event: &Event) -> Result<Vec<u8>, NoMemory>
    ensures { IfOk result (λ text. text.items ≡ print_event line event.now) }
{
    let mut out = Vec::new(alloc);
    put_event(&mut out, line, event)?;
    Ok(out)
}
