ghost use Rattle.std.specs.Prelude.{◌≡◌};
ghost use Rattle.dl_lwrite.specs.declared.send_fault.SendFault.TheVariants.{NoMemory};

use dl_types::memory;
use std::alloc::{AllocError, AllocFailed};
use thiserror::Error;

/// Why an entry was not sent. The writer is then as before.
#[derive(Clone, Copy, Debug, PartialEq, Eq, Error)]
pub enum SendFault {
    /// The ledger is fenced: this bookie was the first to say so.
    #[error("the ledger is fenced at bookie {0}")]
    Fenced(u8),
    /// So many entries are unconfirmed as may be.
    #[error("the window of unconfirmed entries is full")]
    WindowFull,
    /// Memory ran out.
    #[error("no memory")]
    NoMemory,
}

impl From<memory::NoMemory> for SendFault {
    ghost from_gives = { λ _ fault. fault ≡ NoMemory };

    fn from(_fault: memory::NoMemory) -> SendFault {
        SendFault::NoMemory
    }
}

impl From<AllocError> for SendFault {
    ghost from_gives = { λ _ fault. fault ≡ NoMemory };

    fn from(_fault: AllocError) -> SendFault {
        SendFault::NoMemory
    }
}

impl<T: Drop> From<AllocFailed<T>> for SendFault {
    ghost from_gives = { λ _ fault. fault ≡ NoMemory };

    fn from(_fault: AllocFailed<T>) -> SendFault {
        SendFault::NoMemory
    }
}
