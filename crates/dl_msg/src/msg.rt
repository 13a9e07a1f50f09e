use crate::meta_reply::MetaReply;
use crate::resource::Resource;
use bytes::Bytes;
use dl_types::meta_op::MetaOp;

/// A message. `count` is a confirmed count: how many of the first entries of a ledger are confirmed. `tag` is the number
/// of the order that asks; replies repeat it. The bytes of an entry are shared by the messages that carry it.
#[derive(Clone, Debug, Drop)]
pub enum Msg {
    /// Store an entry (the BookKeeper protocol, "add entry").
    Add {
        ledger: u64,
        entry: u64,
        count: u64,
        bytes: Bytes,
    },
    /// Store a copy of an entry, also where the ledger is fenced (BookKeeper, "recovery add").
    Copy {
        tag: u32,
        ledger: u64,
        entry: u64,
        count: u64,
        bytes: Bytes,
    },
    /// Tell the greatest confirmed count that is known, and fence the ledger first where that is asked (BookKeeper,
    /// "read last add confirmed", "fence ledger").
    AskLac {
        tag: u32,
        ledger: u64,
        fence: bool,
    },
    /// Give an entry (BookKeeper, "read entry").
    AskEntry {
        tag: u32,
        ledger: u64,
        entry: u64,
    },
    /// The entry is stored.
    AddOk {
        ledger: u64,
        entry: u64,
    },
    /// The ledger is fenced, and the entry isn't stored.
    AddFenced {
        ledger: u64,
        entry: u64,
    },
    /// There is no room for the entry, or for the fence of the ledger, whose entry is then 0.
    Full {
        what: Resource,
        ledger: u64,
        entry: u64,
    },
    /// The copy is stored.
    CopyOk {
        tag: u32,
        ledger: u64,
        entry: u64,
    },
    /// The greatest confirmed count that an entry of the ledger carries here, and whether the ledger is fenced.
    LacIs {
        tag: u32,
        ledger: u64,
        fenced: bool,
        count: u64,
    },
    /// The bytes of an entry.
    EntryIs {
        tag: u32,
        ledger: u64,
        entry: u64,
        bytes: Bytes,
    },
    /// The entry isn't here; and whether the ledger is fenced.
    NoEntry {
        tag: u32,
        ledger: u64,
        entry: u64,
        fenced: bool,
    },
    /// Run a request of a session; requests of a session are numbered.
    MetaAsk {
        session: u64,
        number: u32,
        op: MetaOp,
    },
    /// The reply to the request of that number.
    MetaReply {
        session: u64,
        number: u32,
        reply: MetaReply,
    },
}
