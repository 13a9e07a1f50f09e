ghost use Rattle.std.specs.Prelude.{◌≡◌};
ghost use Rattle.dl_rules_stream.specs.LogWriters.{is_closing};
ghost use Rattle.dl_writer.specs.Modes.{log_mode, past_notice};

/// How far a commit or a close has come.
#[derive(Clone, Copy, Debug, PartialEq, Eq)]
pub(crate) enum Mode {
    /// Neither is under way.
    Open,
    /// A commit waits until all that was sent is confirmed.
    Awaiting,
    /// The control entry of a commit is sent, at this number.
    Committing { control: u64 },
    /// The control entry of this number is confirmed, and no call came since.
    Committed { control: u64 },
    /// A close waits until all that was sent is confirmed.
    Closing,
    /// All that was sent before a close is confirmed.
    Closable,
}

impl Mode {
    /// Whether a close has begun.
    pub(crate) fn is_closing(self) -> bool
        ensures { result ≡ is_closing (log_mode self) }
    {
        match self {
            Mode::Closing => true,
            Mode::Closable => true,
            _ => false,
        }
    }

    /// The mode after a call but hearing, which ends the notice of a commit.
    pub(crate) fn past_notice(self) -> Mode
        ensures { result ≡ past_notice self }
    {
        match self {
            Mode::Committed { .. } => Mode::Open,
            _ => self,
        }
    }
}
