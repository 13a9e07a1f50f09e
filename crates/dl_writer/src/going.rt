ghost use Rattle.std.specs.Prelude.{◌≡◌};
ghost use Rattle.dl_writer.specs.Going.{going_if, going};

use crate::mode::Mode;
use dl_lwrite::writer::LedgerWriter;

/// How a commit or a close goes on.
#[derive(Clone, Copy, Debug, PartialEq, Eq)]
pub(crate) enum Going {
    /// The mode is this one, and nothing is sent.
    Turns(Mode),
    /// The control entry of a commit is due.
    SendsControl,
}

/// A mode that turns into another where a test holds.
fn turned(mode: Mode, holds: bool, other: Mode) -> Going
    ensures { result ≡ going_if holds other mode }
{
    if holds {
        Going::Turns(other)
    } else {
        Going::Turns(mode)
    }
}

/// How a mode goes on with what a ledger's writer has heard. A fenced writer goes on with nothing.
pub(crate) fn next_going(mode: Mode, ledger: &LedgerWriter) -> Going
    ensures { result ≡ going ledger.now mode }
{
    if ledger.fenced().is_some() {
        return Going::Turns(mode);
    }
    match mode {
        Mode::Awaiting => {
            if ledger.is_confirmed() {
                Going::SendsControl
            } else {
                Going::Turns(mode)
            }
        }
        Mode::Committing { control } => {
            let is_confirmed = control < ledger.confirmed();
            turned(mode, is_confirmed, Mode::Committed { control })
        }
        Mode::Closing => turned(mode, ledger.is_confirmed(), Mode::Closable),
        _ => Going::Turns(mode),
    }
}
