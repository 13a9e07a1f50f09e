use crate::bookie::BookieId;
use crate::dlsn::Dlsn;
use crate::path::Path;
use crate::session::SessionId;
use crate::txid::TxId;

/// Why an order is refused.
#[derive(Clone, Debug, PartialEq, Eq, Drop)]
pub enum Refusal {
    /// The client's session, this one, has ended.
    Expired { session: SessionId },
    /// Another member of the stream's lock holds it: the one of this number.
    Held { member: u64 },
    /// The ledger is fenced, as this bookie was the first to say: another client owns the stream now.
    Fenced { bookie: BookieId },
    /// The node of this path has moved on, to this version.
    Moved { path: Path, version: u64 },
    /// There is no such stream.
    NoStream,
    /// There is such a stream.
    StreamExists,
    /// The id given is below the id of the record taken before it.
    TxidBack { last: TxId, given: TxId },
    /// The payload has more than `MAX_PAYLOAD` bytes: so many.
    TooLong { length: u64 },
    /// The place is above the end of the stream, which is this.
    BeyondEnd { end: Dlsn },
    /// The client has no writer, or its close has begun.
    NoWriter,
    /// What was asked for lies below the stream's point, which is this.
    Truncated { point: Dlsn },
    /// The node has so many children.
    NotEmpty { count: u64 },
    /// The order of this line is under way.
    Busy { line: u32 },
    /// The name breaks its form at this byte, from 0.
    BadName { at: u8 },
    /// An entry would have to be sent while a window of entries is unconfirmed.
    WindowFull,
    /// The node of this path is not as it has to be for the order to go on.
    GaveUp { path: Path },
}
