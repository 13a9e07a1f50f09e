ghost use Rattle.std.specs.Prelude.{◌≡◌};
ghost use Rattle.dl_schedule.specs.Words.{first_text, start_text, node_text};
ghost use Rattle.dl_schedule.specs.StepLines.{first_word_of, start_word_of, letter_of};

use crate::step::Step;
use dl_text::word::Word;
use dl_types::address::Address;
use dl_types::start::Start;

/// The first word of a line.
#[derive(Clone, Copy, Debug, PartialEq, Eq)]
pub enum FirstWord {
    Setup,
    Join,
    Crash,
    Expire,
    Create,
    Remove,
    Open,
    Recover,
    Purge,
    Append,
    Set,
    Flush,
    Commit,
    Close,
    Seek,
    Read,
    Truncate,
    Deliver,
    Sync,
    Lose,
    Stop,
    StopMeta,
    Kill,
    Up,
    Settle,
    Mail,
}

impl FirstWord {
    /// All first words.
    pub const ALL: [FirstWord; 26] = [
        FirstWord::Setup,
        FirstWord::Join,
        FirstWord::Crash,
        FirstWord::Expire,
        FirstWord::Create,
        FirstWord::Remove,
        FirstWord::Open,
        FirstWord::Recover,
        FirstWord::Purge,
        FirstWord::Append,
        FirstWord::Set,
        FirstWord::Flush,
        FirstWord::Commit,
        FirstWord::Close,
        FirstWord::Seek,
        FirstWord::Read,
        FirstWord::Truncate,
        FirstWord::Deliver,
        FirstWord::Sync,
        FirstWord::Lose,
        FirstWord::Stop,
        FirstWord::StopMeta,
        FirstWord::Kill,
        FirstWord::Up,
        FirstWord::Settle,
        FirstWord::Mail,
    ];

    /// The first word of the line of a step.
    pub fn of(step: &Step) -> FirstWord
        ensures { result ≡ first_word_of step.now }
    {
        match step {
            Step::Setup { .. } => FirstWord::Setup,
            Step::Join { .. } => FirstWord::Join,
            Step::Crash { .. } => FirstWord::Crash,
            Step::Expire { .. } => FirstWord::Expire,
            Step::Create { .. } => FirstWord::Create,
            Step::Remove { .. } => FirstWord::Remove,
            Step::Open { .. } => FirstWord::Open,
            Step::Recover { .. } => FirstWord::Recover,
            Step::Purge { .. } => FirstWord::Purge,
            Step::Append { .. } => FirstWord::Append,
            Step::Set { .. } => FirstWord::Set,
            Step::Flush { .. } => FirstWord::Flush,
            Step::Commit { .. } => FirstWord::Commit,
            Step::Close { .. } => FirstWord::Close,
            Step::SeekOldest { .. } | Step::SeekPlace { .. } | Step::SeekTxid { .. } => {
                FirstWord::Seek
            }
            Step::Read { .. } => FirstWord::Read,
            Step::Truncate { .. } => FirstWord::Truncate,
            Step::Deliver { .. } => FirstWord::Deliver,
            Step::Sync { .. } => FirstWord::Sync,
            Step::Lose { .. } => FirstWord::Lose,
            Step::Stop { .. } => FirstWord::Stop,
            Step::StopMeta { .. } => FirstWord::StopMeta,
            Step::Kill { .. } => FirstWord::Kill,
            Step::Up { .. } => FirstWord::Up,
            Step::Settle => FirstWord::Settle,
            Step::Mail => FirstWord::Mail,
        }
    }
}

impl Word for FirstWord {
    ghost text = { first_text };

    fn text(self) -> &'static [u8] {
        match self {
            FirstWord::Setup => b"setup ",
            FirstWord::Join => b"join ",
            FirstWord::Crash => b"crash ",
            FirstWord::Expire => b"expire ",
            FirstWord::Create => b"create ",
            FirstWord::Remove => b"remove ",
            FirstWord::Open => b"open ",
            FirstWord::Recover => b"recover ",
            FirstWord::Purge => b"purge ",
            FirstWord::Append => b"append ",
            FirstWord::Set => b"set ",
            FirstWord::Flush => b"flush ",
            FirstWord::Commit => b"commit ",
            FirstWord::Close => b"close ",
            FirstWord::Seek => b"seek ",
            FirstWord::Read => b"read ",
            FirstWord::Truncate => b"truncate ",
            FirstWord::Deliver => b"deliver ",
            FirstWord::Sync => b"sync ",
            FirstWord::Lose => b"lose ",
            FirstWord::Stop => b"stop ",
            FirstWord::StopMeta => b"stopmeta ",
            FirstWord::Kill => b"kill ",
            FirstWord::Up => b"up ",
            FirstWord::Settle => b"settle\n",
            FirstWord::Mail => b"mail\n",
        }
    }
}

/// The word that says where a reader is put.
#[derive(Clone, Copy, Debug, PartialEq, Eq)]
pub enum StartWord {
    Oldest,
    Place,
    Txid,
}

impl StartWord {
    /// All of them.
    pub const ALL: [StartWord; 3] = [StartWord::Oldest, StartWord::Place, StartWord::Txid];

    /// The word for a reader that begins there.
    pub fn of(start: &Start) -> StartWord
        ensures { result ≡ start_word_of start.now }
    {
        match start {
            Start::Oldest => StartWord::Oldest,
            Start::Place(_) => StartWord::Place,
            Start::Tx(_) => StartWord::Txid,
        }
    }
}

impl Word for StartWord {
    ghost text = { start_text };

    fn text(self) -> &'static [u8] {
        match self {
            StartWord::Oldest => b"oldest\n",
            StartWord::Place => b"dlsn ",
            StartWord::Txid => b"txid ",
        }
    }
}

/// The letter with which a word that names a client, a bookie or the metadata node begins.
#[derive(Clone, Copy, Debug, PartialEq, Eq)]
pub enum NodeWord {
    Client,
    Bookie,
    Meta,
}

impl NodeWord {
    /// The letters of all.
    pub const ALL: [NodeWord; 3] = [NodeWord::Client, NodeWord::Bookie, NodeWord::Meta];

    /// Those of nodes, which clients are not.
    pub const NODES: [NodeWord; 2] = [NodeWord::Bookie, NodeWord::Meta];

    /// The letter of an address.
    pub fn of(address: &Address) -> NodeWord
        ensures { result ≡ letter_of address.now }
    {
        match address {
            Address::Client(_) => NodeWord::Client,
            Address::Bookie(_) => NodeWord::Bookie,
            Address::Meta => NodeWord::Meta,
        }
    }
}

impl Word for NodeWord {
    ghost text = { node_text };

    fn text(self) -> &'static [u8] {
        match self {
            NodeWord::Client => b"c",
            NodeWord::Bookie => b"b",
            NodeWord::Meta => b"m",
        }
    }
}
