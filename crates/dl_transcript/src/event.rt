use dl_types::address::Address;
use dl_types::client::ClientId;
use dl_types::dlsn::Dlsn;
use dl_types::name::Name;
use dl_types::payload::Payload;
use dl_types::read_row::ReadRows;
use dl_types::refusal::Refusal;
use dl_types::session::SessionId;
use dl_types::txid::TxId;

/// What a step of the machine shows. The fields of a variant are the words of its line, in their
/// order.
#[derive(Debug, Drop)]
pub enum Event {
    /// The client joined with this session.
    Joined {
        client: ClientId,
        session: SessionId,
    },
    /// The session ended.
    Expired {
        session: SessionId,
    },
    /// The client created the stream.
    Created {
        client: ClientId,
        stream: Name,
    },
    /// The client removed the stream.
    Removed {
        client: ClientId,
        stream: Name,
    },
    /// The client closed the segment that it wrote, and left the stream's lock.
    Released {
        client: ClientId,
        stream: Name,
    },
    /// The client found nothing to recover: the stream's last segment is not in progress.
    Whole {
        client: ClientId,
        stream: Name,
    },
    /// The client writes this segment of the stream from now on.
    Writer {
        client: ClientId,
        stream: Name,
        segment: u64,
    },
    /// A record was taken from the client for the stream; `call` counts the client's records from
    /// 1.
    Took {
        client: ClientId,
        call: u32,
        stream: Name,
        txid: TxId,
        payload: Payload,
    },
    /// The client's writer sent an entry of a segment to its bookies.
    Sent {
        client: ClientId,
        segment: u64,
        entry: u64,
    },
    /// The stream grew by the row at this place, which is record `call` of `client`.
    Grow {
        stream: Name,
        place: Dlsn,
        txid: TxId,
        client: ClientId,
        call: u32,
        payload: Payload,
    },
    /// Record `call` of the client is acknowledged: it stands at this place.
    Ack {
        client: ClientId,
        call: u32,
        place: Dlsn,
    },
    /// The rows of the stream below this place are readable by every read that begins later.
    Committed {
        stream: Name,
        place: Dlsn,
    },
    /// The ledger of this segment of the stream is closed.
    Closed {
        stream: Name,
        segment: u64,
    },
    /// The client recovered the segment of this place; the place's entry is the number of entries
    /// that it was closed with.
    Recovered {
        client: ClientId,
        stream: Name,
        place: Dlsn,
    },
    /// The stream's point moved to this place.
    Point {
        stream: Name,
        place: Dlsn,
    },
    /// The client moved the stream's point to this place.
    Truncated {
        client: ClientId,
        stream: Name,
        place: Dlsn,
    },
    /// The client deleted so many segments of the stream, all of them below the one that its point
    /// stands in.
    Purged {
        client: ClientId,
        stream: Name,
        count: u64,
    },
    /// The client's reader stands at this place of the stream.
    OpenedAt {
        client: ClientId,
        stream: Name,
        place: Dlsn,
    },
    /// The client's reader stands at the stream's point, for rows whose ids are at least this one.
    OpenedFrom {
        client: ClientId,
        stream: Name,
        txid: TxId,
    },
    /// A read of the client on the stream began.
    Reading {
        client: ClientId,
        stream: Name,
    },
    /// The client's read on the stream found no row.
    End {
        client: ClientId,
        stream: Name,
    },
    /// The client's read on the stream found these rows.
    Rows {
        client: ClientId,
        stream: Name,
        rows: ReadRows,
    },
    /// The client's order was refused.
    Refused {
        client: ClientId,
        refusal: Refusal,
    },
    /// The link from one node to another has so many messages.
    Mail {
        from: Address,
        to: Address,
        count: u32,
    },
    /// Nothing changed.
    Nothing,
}
