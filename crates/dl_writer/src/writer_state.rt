ghost use Rattle.std.specs.Prelude.{◌≡◌};
ghost use Rattle.dl_writer.specs.States.{state_of, state_at};

use crate::mode::Mode;
use dl_types::txid::TxId;

/// How far a writer has come.
#[derive(Clone, Copy, Debug, PartialEq, Eq)]
pub enum WriterState {
    /// It takes records.
    Open,
    /// A commit waits until all that was sent is confirmed, or its control entry is.
    Committing,
    /// The control entry of this number is confirmed. It stands until the next call but hearing.
    Committed(u64),
    /// A close waits until all that was sent is confirmed.
    Closing,
    /// The ledger may be closed at so many entries, which hold so many rows; this is the last transaction id that was sent.
    /// It stands for good.
    Closable { entries: u64, rows: u64, last: TxId },
    /// The ledger is fenced, as this bookie was the first to say.
    Fenced(u8),
}

/// The state in a mode, by the bookie that told of a fence, and by what was sent.
pub(crate) fn state_by(
    mode: Mode,
    fenced: Option<u8>,
    entries: u64,
    rows: u32,
    last: TxId,
) -> WriterState
    ensures { state_of result ≡ state_at mode fenced entries rows last }
{
    let closable = WriterState::Closable {
        entries,
        rows: u64::from(rows),
        last,
    };
    match fenced {
        Some(bookie) => match mode {
            Mode::Closable => closable,
            _ => WriterState::Fenced(bookie),
        },
        None => match mode {
            Mode::Open => WriterState::Open,
            Mode::Awaiting => WriterState::Committing,
            Mode::Committing { .. } => WriterState::Committing,
            Mode::Committed { control } => WriterState::Committed(control),
            Mode::Closing => WriterState::Closing,
            Mode::Closable => closable,
        },
    }
}
