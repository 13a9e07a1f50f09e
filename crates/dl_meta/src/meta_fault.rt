ghost use Rattle.std.specs.Prelude.{◌≡◌};
ghost use Rattle.dl_meta.specs.declared.meta_fault.MetaFault.TheVariants.{NoMemory};

use dl_types::memory;
use std::alloc::{AllocError, AllocFailed};
use thiserror::Error;

/// Why a call on a metadata store did not succeed.
#[derive(Clone, Copy, Debug, PartialEq, Eq, Error)]
pub enum MetaFault {
    /// A call on the device failed: the item may be in force or not, and the store does nothing more until it is loaded.
    #[error("device failed")]
    Device,
    /// An earlier call of this store failed at the device. No call was made.
    #[error("metadata store failed before")]
    Failed,
    /// The journal has no room for the item, or all sessions were given. No call was made.
    #[error("metadata store is full")]
    Full,
    /// The bytes of the file break the journal's layout, or an item breaks its grammar or its place among the others. The
    /// place, from 0, of the first byte that does.
    #[error("metadata damaged at {0}")]
    Damaged(u64),
    /// The file is longer than a journal may be. Its size in bytes.
    #[error("metadata of {0} bytes is too large")]
    TooLarge(u64),
    /// Memory ran out before any call that writes: the store is as before.
    #[error("no memory")]
    NoMemory,
}

impl From<AllocError> for MetaFault {
    ghost from_gives = { λ _ fault. fault ≡ NoMemory };

    fn from(_fault: AllocError) -> MetaFault {
        MetaFault::NoMemory
    }
}

impl<T: Drop> From<AllocFailed<T>> for MetaFault {
    ghost from_gives = { λ _ fault. fault ≡ NoMemory };

    fn from(_fault: AllocFailed<T>) -> MetaFault {
        MetaFault::NoMemory
    }
}

impl From<memory::NoMemory> for MetaFault {
    ghost from_gives = { λ _ fault. fault ≡ NoMemory };

    fn from(_fault: memory::NoMemory) -> MetaFault {
        MetaFault::NoMemory
    }
}
