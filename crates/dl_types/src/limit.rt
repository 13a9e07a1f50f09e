ghost use Rattle.std.specs.Prelude.{◌≡◌};

/// What a limit counts.
#[derive(Clone, Copy, Debug, PartialEq, Eq)]
pub enum LimitName {
    /// The lines of a schedule, or the steps of a command.
    Lines,
    /// The bytes of a schedule.
    Schedule,
    /// The messages that were sent.
    Messages,
    /// The bytes of the messages that were sent.
    MessageBytes,
    /// The bytes of a transcript.
    Transcript,
    /// The bytes of a node's journal.
    Journal,
    /// The pages of a bookie's pool.
    Pool,
    /// The entries that a bookie holds.
    Index,
    /// The ledgers that a bookie holds.
    Ledgers,
    /// The places of a bookie's queue.
    Queue,
    /// Transaction ids.
    Txid,
    /// The sessions that were opened.
    Sessions,
    /// The records that were taken from a client.
    Calls,
}

impl LimitName {
    ghost use Rattle.dl_types.specs.Statuses.{limit_text};

    /// The limit's name as notes print it.
    pub fn text(self) -> &'static [u8]
        ensures { result.now ≡ limit_text self }
    {
        match self {
            LimitName::Lines => b"lines",
            LimitName::Schedule => b"schedule",
            LimitName::Messages => b"messages",
            LimitName::MessageBytes => b"message-bytes",
            LimitName::Transcript => b"transcript",
            LimitName::Journal => b"journal",
            LimitName::Pool => b"pool",
            LimitName::Index => b"index",
            LimitName::Ledgers => b"ledgers",
            LimitName::Queue => b"queue",
            LimitName::Txid => b"txid",
            LimitName::Sessions => b"sessions",
            LimitName::Calls => b"calls",
        }
    }
}
