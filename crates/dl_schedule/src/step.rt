use crate::node::Node;
use crate::up_to::{BookieCount, DeviceStep, MessageNumber, RowCount};
use dl_types::address::Address;
use dl_types::bookie::BookieId;
use dl_types::client::ClientId;
use dl_types::name::Name;
use dl_types::payload::Payload;
use dl_types::payloads::Payloads;
use dl_types::place::Place;
use dl_types::session::SessionId;
use dl_types::txid::TxId;

/// The most payloads of a set, as of the members of a record set; it has at least one.
pub const MAX_SET: u8 = 64;

/// One line of a schedule: what the world is told to do next. The fields are the words of the line that vary, in their
/// order.
#[derive(Debug, Drop)]
pub enum Step {
    /// Sets the world up with so many bookies, and the sizes of each ledger's ensemble and quorums.
    Setup {
        bookies: BookieCount,
        ensemble: BookieCount,
        write_quorum: BookieCount,
        ack_quorum: BookieCount,
    },
    /// A client process begins, with a new session.
    Join {
        client: ClientId,
    },
    /// A client process ends; its session stays live.
    Crash {
        client: ClientId,
    },
    /// A session ends.
    Expire {
        session: SessionId,
    },
    /// A client creates a stream.
    Create {
        client: ClientId,
        stream: Name,
    },
    /// A client removes a stream.
    Remove {
        client: ClientId,
        stream: Name,
    },
    /// A client opens a stream for writing.
    Open {
        client: ClientId,
        stream: Name,
    },
    /// A client recovers the last segment of a stream.
    Recover {
        client: ClientId,
        stream: Name,
    },
    /// A client deletes the segments of a stream that lie before its point.
    Purge {
        client: ClientId,
        stream: Name,
    },
    /// A client appends a record to the stream that it has open.
    Append {
        client: ClientId,
        txid: TxId,
        payload: Payload,
    },
    /// A client appends a record set of 1 to `MAX_SET` members.
    Set {
        client: ClientId,
        txid: TxId,
        payloads: Payloads,
    },
    /// A client sends the records that it has taken and not sent yet.
    Flush {
        client: ClientId,
    },
    /// A client makes all that it has taken readable.
    Commit {
        client: ClientId,
    },
    /// A client closes the stream that it has open.
    Close {
        client: ClientId,
    },
    /// A client puts a reader at the point of a stream.
    SeekOldest {
        client: ClientId,
        stream: Name,
    },
    /// A client puts a reader at a place of a stream.
    SeekPlace {
        client: ClientId,
        stream: Name,
        place: Place,
    },
    /// A client puts a reader at the point of a stream, for records whose ids are at least this one.
    SeekTxid {
        client: ClientId,
        stream: Name,
        txid: TxId,
    },
    /// A client reads rows from where its reader stands.
    Read {
        client: ClientId,
        count: RowCount,
    },
    /// A client moves the point of a stream to a place.
    Truncate {
        client: ClientId,
        stream: Name,
        place: Place,
    },
    /// A message of a link, by its number, comes to its receiver. One end is a client and the other is not.
    Deliver {
        from: Address,
        to: Address,
        number: MessageNumber,
    },
    /// A bookie commits its queue.
    Sync {
        bookie: BookieId,
    },
    /// A bookie loses its disk for good.
    Lose {
        bookie: BookieId,
    },
    /// A bookie commits its queue and stops inside this device call, with the call's work or without.
    Stop {
        bookie: BookieId,
        call: DeviceStep,
        kept: bool,
    },
    /// A client's message comes to the metadata node, which stops inside this device call of the commit.
    StopMeta {
        client: ClientId,
        number: MessageNumber,
        call: DeviceStep,
        kept: bool,
    },
    /// A node goes down.
    Kill {
        node: Node,
    },
    /// A node that is down comes back.
    Up {
        node: Node,
    },
    /// All that is under way goes on until nothing more happens.
    Settle,
    /// Shows how many messages each link has.
    Mail,
}
