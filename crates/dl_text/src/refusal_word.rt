ghost use Rattle.std.specs.Prelude.{◌≡◌};

use crate::word::Word;
use dl_types::refusal::Refusal;

/// The word by which a line tells of a refusal.
#[derive(Clone, Copy, Debug, PartialEq, Eq)]
pub enum RefusalWord {
    Expired,
    Held,
    Fenced,
    Moved,
    NoStream,
    StreamExists,
    TxidBack,
    TooLong,
    BeyondEnd,
    NoWriter,
    Truncated,
    NotEmpty,
    Busy,
    BadName,
    WindowFull,
    GaveUp,
}

impl Word for RefusalWord {
    ghost use Rattle.dl_text.specs.Refusals.{refusal_text};

    ghost text = { refusal_text };

    fn text(self) -> &'static [u8] {
        match self {
            RefusalWord::Expired => b"expired ",
            RefusalWord::Held => b"held ",
            RefusalWord::Fenced => b"fenced ",
            RefusalWord::Moved => b"moved ",
            RefusalWord::NoStream => b"nostream\n",
            RefusalWord::StreamExists => b"streamexists\n",
            RefusalWord::TxidBack => b"txidback ",
            RefusalWord::TooLong => b"toolong ",
            RefusalWord::BeyondEnd => b"beyondend ",
            RefusalWord::NoWriter => b"nowriter\n",
            RefusalWord::Truncated => b"truncated ",
            RefusalWord::NotEmpty => b"notempty ",
            RefusalWord::Busy => b"busy ",
            RefusalWord::BadName => b"badname ",
            RefusalWord::WindowFull => b"windowfull\n",
            RefusalWord::GaveUp => b"gaveup ",
        }
    }
}

impl RefusalWord {
    ghost use Rattle.dl_text.specs.Refusals.{refusal_word};

    /// The word that tells of this refusal.
    pub fn of(refusal: &Refusal) -> RefusalWord
        ensures { result ≡ refusal_word refusal.now }
    {
        match refusal {
            Refusal::Expired { .. } => RefusalWord::Expired,
            Refusal::Held { .. } => RefusalWord::Held,
            Refusal::Fenced { .. } => RefusalWord::Fenced,
            Refusal::Moved { .. } => RefusalWord::Moved,
            Refusal::NoStream => RefusalWord::NoStream,
            Refusal::StreamExists => RefusalWord::StreamExists,
            Refusal::TxidBack { .. } => RefusalWord::TxidBack,
            Refusal::TooLong { .. } => RefusalWord::TooLong,
            Refusal::BeyondEnd { .. } => RefusalWord::BeyondEnd,
            Refusal::NoWriter => RefusalWord::NoWriter,
            Refusal::Truncated { .. } => RefusalWord::Truncated,
            Refusal::NotEmpty { .. } => RefusalWord::NotEmpty,
            Refusal::Busy { .. } => RefusalWord::Busy,
            Refusal::BadName { .. } => RefusalWord::BadName,
            Refusal::WindowFull => RefusalWord::WindowFull,
            Refusal::GaveUp { .. } => RefusalWord::GaveUp,
        }
    }
}
