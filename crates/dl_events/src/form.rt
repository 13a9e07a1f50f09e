ghost use Rattle.std.specs.Prelude.{◌≡◌, ◌≤◌, ◌-◌, IfOk, codes};
ghost use Rattle.dl_types.specs.declared.txid.TheConstants.{MAX_TXID};
ghost use Rattle.dl_text.specs.Readers.{Gives, map_at};
ghost use Rattle.dl_text.specs.ListFields.{list_at};
ghost use Rattle.dl_schedule.specs.declared.up_to.TheConstants.{MAX_ROWS};
ghost use Rattle.dl_schedule.specs.StepReading.{txid_at};
ghost use Rattle.dl_transcript.specs.Lines.{line_feed};
ghost use Rattle.dl_transcript.specs.declared.event.Event.TheVariants as event;
ghost use Rattle.dl_transcript.specs.Reading.{u64_at, any_place_at, session_at, row_at};
ghost use Rattle.dl_transcript.specs.Reading.{order_event, order_event_with, stream_event_with};
ghost use Rattle.dl_transcript.specs.Reading.{joined_at, took_at, sent_at, grow_at, ack_at};
ghost use Rattle.dl_transcript.specs.Reading.{opened_at, refused_at, mail_at, behind_at};

use crate::address::{address_of, other_end_of};
use crate::field::{client_of, name_from, order_of, u32_of};
use crate::refusal::refusal_of;
use crate::row;
use crate::txid_word::TxidWord;
use dl_schedule::up_to::MAX_ROWS;
use dl_text::hex::hex_of;
use dl_text::name::name_of;
use dl_text::number::number_of;
use dl_text::place::place_of;
use dl_text::stop::Stop;
use dl_text::word::word_at;
use dl_transcript::event::Event;
use dl_types::client::ClientId;
use dl_types::payload::Payload;
use dl_types::read_row::ReadRows;
use dl_types::session::SessionId;
use dl_types::txid::{MAX_TXID, TxId};
use std::alloc::Global;

/// `joined C K`, behind its first word.
pub fn joined_of(bytes: &[u8]) -> Result<(Event, &[u8]), Stop>
    ensures { Gives (λ x. (x.0, x.1.now)) result (joined_at bytes.now) }
{
    let (client, rest) = client_of(b' ', bytes)?;
    let (session, rest) = number_of(1, u64::MAX, b'\n', rest)?;
    let client = ClientId::new(client);
    let session = SessionId::new(session);
    Ok((Event::Joined { client, session }, rest))
}

/// `expired K`, behind its first word.
pub fn expired_of(bytes: &[u8]) -> Result<(Event, &[u8]), Stop>
    ensures { Gives (λ x. (x.0, x.1.now)) result
        (map_at event.Expired (session_at line_feed) bytes.now) }
{
    let (session, rest) = number_of(1, u64::MAX, b'\n', bytes)?;
    let session = SessionId::new(session);
    Ok((Event::Expired { session }, rest))
}

/// `created C S`, behind its first word.
pub fn created_of(alloc: Global, bytes: &[u8]) -> Result<(Event, &[u8]), Stop>
    ensures { Gives (λ x. (x.0, x.1.now)) result (order_event event.Created bytes.now) }
{
    let ((client, stream), rest) = order_of(b'\n', bytes)?;
    let stream = name_from(alloc, stream)?;
    let client = ClientId::new(client);
    Ok((Event::Created { client, stream }, rest))
}

/// `removed C S`, behind its first word.
pub fn removed_of(alloc: Global, bytes: &[u8]) -> Result<(Event, &[u8]), Stop>
    ensures { Gives (λ x. (x.0, x.1.now)) result (order_event event.Removed bytes.now) }
{
    let ((client, stream), rest) = order_of(b'\n', bytes)?;
    let stream = name_from(alloc, stream)?;
    let client = ClientId::new(client);
    Ok((Event::Removed { client, stream }, rest))
}

/// `released C S`, behind its first word.
pub fn released_of(alloc: Global, bytes: &[u8]) -> Result<(Event, &[u8]), Stop>
    ensures { Gives (λ x. (x.0, x.1.now)) result (order_event event.Released bytes.now) }
{
    let ((client, stream), rest) = order_of(b'\n', bytes)?;
    let stream = name_from(alloc, stream)?;
    let client = ClientId::new(client);
    Ok((Event::Released { client, stream }, rest))
}

/// `whole C S`, behind its first word.
pub fn whole_of(alloc: Global, bytes: &[u8]) -> Result<(Event, &[u8]), Stop>
    ensures { Gives (λ x. (x.0, x.1.now)) result (order_event event.Whole bytes.now) }
{
    let ((client, stream), rest) = order_of(b'\n', bytes)?;
    let stream = name_from(alloc, stream)?;
    let client = ClientId::new(client);
    Ok((Event::Whole { client, stream }, rest))
}

/// `reading C S`, behind its first word.
pub fn reading_of(alloc: Global, bytes: &[u8]) -> Result<(Event, &[u8]), Stop>
    ensures { Gives (λ x. (x.0, x.1.now)) result (order_event event.Reading bytes.now) }
{
    let ((client, stream), rest) = order_of(b'\n', bytes)?;
    let stream = name_from(alloc, stream)?;
    let client = ClientId::new(client);
    Ok((Event::Reading { client, stream }, rest))
}

/// `end C S`, behind its first word.
pub fn end_of(alloc: Global, bytes: &[u8]) -> Result<(Event, &[u8]), Stop>
    ensures { Gives (λ x. (x.0, x.1.now)) result (order_event event.End bytes.now) }
{
    let ((client, stream), rest) = order_of(b'\n', bytes)?;
    let stream = name_from(alloc, stream)?;
    let client = ClientId::new(client);
    Ok((Event::End { client, stream }, rest))
}

/// `writer C S K`, behind its first word.
pub fn writer_of(alloc: Global, bytes: &[u8]) -> Result<(Event, &[u8]), Stop>
    ensures { Gives (λ x. (x.0, x.1.now)) result
        (order_event_with event.Writer (u64_at line_feed) bytes.now) }
{
    let ((client, stream), rest) = order_of(b' ', bytes)?;
    let (segment, rest) = number_of(0, u64::MAX, b'\n', rest)?;
    let stream = name_from(alloc, stream)?;
    let client = ClientId::new(client);
    Ok((
        Event::Writer {
            client,
            stream,
            segment,
        },
        rest,
    ))
}

/// `purged C S N`, behind its first word.
pub fn purged_of(alloc: Global, bytes: &[u8]) -> Result<(Event, &[u8]), Stop>
    ensures { Gives (λ x. (x.0, x.1.now)) result
        (order_event_with event.Purged (u64_at line_feed) bytes.now) }
{
    let ((client, stream), rest) = order_of(b' ', bytes)?;
    let (count, rest) = number_of(0, u64::MAX, b'\n', rest)?;
    let stream = name_from(alloc, stream)?;
    let client = ClientId::new(client);
    Ok((
        Event::Purged {
            client,
            stream,
            count,
        },
        rest,
    ))
}

/// `recovered C S D`, behind its first word.
pub fn recovered_of(alloc: Global, bytes: &[u8]) -> Result<(Event, &[u8]), Stop>
    ensures { Gives (λ x. (x.0, x.1.now)) result
        (order_event_with event.Recovered (any_place_at line_feed) bytes.now) }
{
    let ((client, stream), rest) = order_of(b' ', bytes)?;
    let (place, rest) = place_of(0, b'\n', rest)?;
    let stream = name_from(alloc, stream)?;
    let client = ClientId::new(client);
    Ok((
        Event::Recovered {
            client,
            stream,
            place,
        },
        rest,
    ))
}

/// `truncated C S D`, behind its first word.
pub fn truncated_of(alloc: Global, bytes: &[u8]) -> Result<(Event, &[u8]), Stop>
    ensures { Gives (λ x. (x.0, x.1.now)) result
        (order_event_with event.Truncated (any_place_at line_feed) bytes.now) }
{
    let ((client, stream), rest) = order_of(b' ', bytes)?;
    let (place, rest) = place_of(0, b'\n', rest)?;
    let stream = name_from(alloc, stream)?;
    let client = ClientId::new(client);
    Ok((
        Event::Truncated {
            client,
            stream,
            place,
        },
        rest,
    ))
}

/// `committed S D`, behind its first word.
pub fn committed_of(alloc: Global, bytes: &[u8]) -> Result<(Event, &[u8]), Stop>
    ensures { Gives (λ x. (x.0, x.1.now)) result
        (stream_event_with event.Committed (any_place_at line_feed) bytes.now) }
{
    let (stream, rest) = name_of(b' ', bytes)?;
    let (place, rest) = place_of(0, b'\n', rest)?;
    let stream = name_from(alloc, stream)?;
    Ok((Event::Committed { stream, place }, rest))
}

/// `closed S K`, behind its first word.
pub fn closed_of(alloc: Global, bytes: &[u8]) -> Result<(Event, &[u8]), Stop>
    ensures { Gives (λ x. (x.0, x.1.now)) result
        (stream_event_with event.Closed (u64_at line_feed) bytes.now) }
{
    let (stream, rest) = name_of(b' ', bytes)?;
    let (segment, rest) = number_of(0, u64::MAX, b'\n', rest)?;
    let stream = name_from(alloc, stream)?;
    Ok((Event::Closed { stream, segment }, rest))
}

/// `point S D`, behind its first word.
pub fn point_of(alloc: Global, bytes: &[u8]) -> Result<(Event, &[u8]), Stop>
    ensures { Gives (λ x. (x.0, x.1.now)) result
        (stream_event_with event.Point (any_place_at line_feed) bytes.now) }
{
    let (stream, rest) = name_of(b' ', bytes)?;
    let (place, rest) = place_of(0, b'\n', rest)?;
    let stream = name_from(alloc, stream)?;
    Ok((Event::Point { stream, place }, rest))
}

/// `took C N S T P`, behind its first word.
pub fn took_of(alloc: Global, bytes: &[u8]) -> Result<(Event, &[u8]), Stop>
    ensures { Gives (λ x. (x.0, x.1.now)) result (took_at bytes.now) }
{
    let (client, rest) = client_of(b' ', bytes)?;
    let (call, rest) = u32_of(b' ', rest)?;
    let (stream, rest) = name_of(b' ', rest)?;
    let (txid, rest) = number_of(0, MAX_TXID, b' ', rest)?;
    let (payload, rest) = hex_of(alloc, b'\n', rest)?;
    let stream = name_from(alloc, stream)?;
    let payload = Payload::from_vec(payload)?;
    let client = ClientId::new(client);
    let txid = TxId::new(txid);
    Ok((
        Event::Took {
            client,
            call,
            stream,
            txid,
            payload,
        },
        rest,
    ))
}

/// `sent C K:E`, behind its first word.
pub fn sent_of(bytes: &[u8]) -> Result<(Event, &[u8]), Stop>
    ensures { Gives (λ x. (x.0, x.1.now)) result (sent_at bytes.now) }
{
    let (client, rest) = client_of(b' ', bytes)?;
    let (segment, rest) = number_of(0, u64::MAX, b':', rest)?;
    let (entry, rest) = number_of(0, u64::MAX, b'\n', rest)?;
    let client = ClientId::new(client);
    Ok((
        Event::Sent {
            client,
            segment,
            entry,
        },
        rest,
    ))
}

/// `grow S D T C N P`, behind its first word.
pub fn grow_of(alloc: Global, bytes: &[u8]) -> Result<(Event, &[u8]), Stop>
    ensures { Gives (λ x. (x.0, x.1.now)) result (grow_at bytes.now) }
{
    let (stream, rest) = name_of(b' ', bytes)?;
    let (place, rest) = place_of(0, b' ', rest)?;
    let (txid, rest) = number_of(0, MAX_TXID, b' ', rest)?;
    let (client, rest) = client_of(b' ', rest)?;
    let (call, rest) = u32_of(b' ', rest)?;
    let (payload, rest) = hex_of(alloc, b'\n', rest)?;
    let stream = name_from(alloc, stream)?;
    let payload = Payload::from_vec(payload)?;
    let client = ClientId::new(client);
    let txid = TxId::new(txid);
    Ok((
        Event::Grow {
            stream,
            place,
            txid,
            client,
            call,
            payload,
        },
        rest,
    ))
}

/// `ack C N D`, behind its first word.
pub fn ack_of(bytes: &[u8]) -> Result<(Event, &[u8]), Stop>
    ensures { Gives (λ x. (x.0, x.1.now)) result (ack_at bytes.now) }
{
    let (client, rest) = client_of(b' ', bytes)?;
    let (call, rest) = u32_of(b' ', rest)?;
    let (place, rest) = place_of(0, b'\n', rest)?;
    let client = ClientId::new(client);
    Ok((
        Event::Ack {
            client,
            call,
            place,
        },
        rest,
    ))
}

/// A transaction id behind its word, to the end of the line.
fn txid_start_of(bytes: &[u8]) -> Result<(u64, &[u8]), Stop>
    ensures exact { Gives (λ x. (x.0, x.1.now)) result
        (behind_at (codes "txid ") (txid_at line_feed) bytes.now) }
    ensures within { IfOk result (λ x. x.0 ≤ MAX_TXID) }
{
    let (_, rest) = word_at(&[TxidWord::Txid], bytes)?;
    number_of(0, MAX_TXID, b'\n', rest)
}

/// `opened C S D` or `opened C S txid T`, behind its first word.
pub fn opened_of(alloc: Global, bytes: &[u8]) -> Result<(Event, &[u8]), Stop>
    ensures { Gives (λ x. (x.0, x.1.now)) result (opened_at bytes.now) }
{
    let ((client, stream), rest) = order_of(b' ', bytes)?;
    let one = match place_of(0, b'\n', rest) {
        Ok((place, rest)) => {
            let stream = name_from(alloc, stream)?;
            let client = ClientId::new(client);
            return Ok((
                Event::OpenedAt {
                    client,
                    stream,
                    place,
                },
                rest,
            ));
        }
        Err(Stop::NoMemory) => return Err(Stop::NoMemory),
        Err(Stop::Left(one)) => one,
    };
    match txid_start_of(rest) {
        Ok((txid, rest)) => {
            let stream = name_from(alloc, stream)?;
            let client = ClientId::new(client);
            let txid = TxId::new(txid);
            Ok((
                Event::OpenedFrom {
                    client,
                    stream,
                    txid,
                },
                rest,
            ))
        }
        Err(Stop::NoMemory) => Err(Stop::NoMemory),
        Err(Stop::Left(other)) => Err(Stop::Left(if one < other { one } else { other })),
    }
}

/// `rows C S D/T/P D/T/P`, behind its first word.
pub fn rows_of(alloc: Global, bytes: &[u8]) -> Result<(Event, &[u8]), Stop>
    ensures { Gives (λ x. (x.0, x.1.now)) result
        (order_event_with event.Rows (list_at row_at (MAX_ROWS - 1)) bytes.now) }
{
    let ((client, stream), rest) = order_of(b' ', bytes)?;
    let (rows, rest) = row::rows_of(alloc, MAX_ROWS - 1, rest)?;
    let stream = name_from(alloc, stream)?;
    let rows = ReadRows::from_vec(rows);
    let client = ClientId::new(client);
    Ok((
        Event::Rows {
            client,
            stream,
            rows,
        },
        rest,
    ))
}

/// `refused C WHY`, behind its first word.
pub fn refused_of(alloc: Global, bytes: &[u8]) -> Result<(Event, &[u8]), Stop>
    ensures { Gives (λ x. (x.0, x.1.now)) result (refused_at bytes.now) }
{
    let (client, rest) = client_of(b' ', bytes)?;
    let (refusal, rest) = match refusal_of(alloc, rest) {
        Ok(found) => found,
        Err(stop) => return Err(stop),
    };
    let client = ClientId::new(client);
    Ok((Event::Refused { client, refusal }, rest))
}

/// `mail F G N`, behind its first word.
pub fn mail_of(bytes: &[u8]) -> Result<(Event, &[u8]), Stop>
    ensures { Gives (λ x. (x.0, x.1.now)) result (mail_at bytes.now) }
{
    let (from, rest) = match address_of(bytes) {
        Ok(found) => found,
        Err(stop) => return Err(stop),
    };
    let (to, rest) = match other_end_of(&from, rest) {
        Ok(found) => found,
        Err(stop) => return Err(stop),
    };
    let (count, rest) = number_of(1, u64::from(u32::MAX), b'\n', rest)?;
    let count = count as u32;
    Ok((Event::Mail { from, to, count }, rest))
}
