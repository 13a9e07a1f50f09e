ghost use Rattle.std.specs.Prelude.{◌≡◌};
ghost use Rattle.dl_fields.specs.declared.stop.Stop.TheVariants as stop;

use crate::fault::Fault;
use dl_types::memory;
use std::alloc::{AllocError, AllocFailed};
use thiserror::Error;

/// Why a reader that takes memory gives up: want of memory, or the first fault of the bytes.
#[derive(Clone, Copy, Debug, PartialEq, Eq, Error)]
pub enum Stop {
    /// Memory ran out. Nothing is said of the bytes.
    #[error("no memory")]
    NoMemory,
    /// The bytes have this fault.
    #[error("{0}")]
    Fault(Fault),
}

impl From<Fault> for Stop {
    ghost from_gives = { λ fault s. s ≡ stop.Fault fault };

    fn from(fault: Fault) -> Stop {
        Stop::Fault(fault)
    }
}

impl From<memory::NoMemory> for Stop {
    ghost from_gives = { λ _ s. s ≡ stop.NoMemory };

    fn from(_fault: memory::NoMemory) -> Stop {
        Stop::NoMemory
    }
}

impl From<AllocError> for Stop {
    ghost from_gives = { λ _ s. s ≡ stop.NoMemory };

    fn from(_fault: AllocError) -> Stop {
        Stop::NoMemory
    }
}

impl<T: Drop> From<AllocFailed<T>> for Stop {
    ghost from_gives = { λ _ s. s ≡ stop.NoMemory };

    fn from(_fault: AllocFailed<T>) -> Stop {
        Stop::NoMemory
    }
}
