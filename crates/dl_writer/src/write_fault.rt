ghost use Rattle.std.specs.Prelude.{◌≡◌};
ghost use Rattle.dl_writer.specs.declared.write_fault.WriteFault.TheVariants.{Refused, NoMemory};

use dl_types::memory;
use dl_types::refusal::Refusal;
use std::alloc::{AllocError, AllocFailed};
use thiserror::Error;

/// Why a call was not taken. The writer is then as before.
#[derive(Debug, Drop, Error)]
pub enum WriteFault {
    /// The call is refused: the writer's close has begun, the ledger is fenced, the payload is too long, the id is below the one
    /// before it, or an entry is due while a window of entries is unconfirmed.
    #[error("the call is refused")]
    Refused(Refusal),
    /// Memory ran out.
    #[error("no memory")]
    NoMemory,
}

impl From<Refusal> for WriteFault {
    ghost from_gives = { λ refusal fault. fault ≡ Refused refusal };

    fn from(refusal: Refusal) -> WriteFault {
        WriteFault::Refused(refusal)
    }
}

impl From<memory::NoMemory> for WriteFault {
    ghost from_gives = { λ _ fault. fault ≡ NoMemory };

    fn from(_fault: memory::NoMemory) -> WriteFault {
        WriteFault::NoMemory
    }
}

impl From<AllocError> for WriteFault {
    ghost from_gives = { λ _ fault. fault ≡ NoMemory };

    fn from(_fault: AllocError) -> WriteFault {
        WriteFault::NoMemory
    }
}

impl<T: Drop> From<AllocFailed<T>> for WriteFault {
    ghost from_gives = { λ _ fault. fault ≡ NoMemory };

    fn from(_fault: AllocFailed<T>) -> WriteFault {
        WriteFault::NoMemory
    }
}
