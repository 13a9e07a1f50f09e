ghost use Rattle.std.specs.Prelude.{◌≡◌};
ghost use Rattle.dl_journal.specs.declared.load_fault.LoadFault.TheVariants.{NoMemory};

use dl_types::memory;
use std::alloc::{AllocError, AllocFailed};
use thiserror::Error;

/// Why a journal was not loaded.
#[derive(Clone, Copy, Debug, PartialEq, Eq, Error)]
pub enum LoadFault {
    /// The bytes break the journal's layout. The place, from 0, of the first byte of the part that breaks it.
    #[error("journal damaged at {0}")]
    Damaged(u64),
    /// The file is longer than a journal may be. Its size in bytes.
    #[error("journal of {0} bytes is too large")]
    TooLarge(u64),
    /// A call on the device failed.
    #[error("device failed")]
    Device,
    /// Memory ran out.
    #[error("no memory")]
    NoMemory,
}

impl From<AllocError> for LoadFault {
    ghost from_gives = { λ _ e. e ≡ NoMemory };

    fn from(_error: AllocError) -> LoadFault {
        LoadFault::NoMemory
    }
}

impl<T: Drop> From<AllocFailed<T>> for LoadFault {
    ghost from_gives = { λ _ e. e ≡ NoMemory };

    fn from(_error: AllocFailed<T>) -> LoadFault {
        LoadFault::NoMemory
    }
}

impl From<memory::NoMemory> for LoadFault {
    ghost from_gives = { λ _ e. e ≡ NoMemory };

    fn from(_error: memory::NoMemory) -> LoadFault {
        LoadFault::NoMemory
    }
}
