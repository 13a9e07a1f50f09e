ghost use Rattle.std.specs.Prelude.{◌≡◌};
ghost use Rattle.dl_text.specs.declared.stop.Stop.TheVariants.{NoMemory};

use dl_types::memory;
use std::alloc::{AllocError, AllocFailed};
use thiserror::Error;

/// Why a reader of the front of a text gives up.
#[derive(Clone, Copy, Debug, PartialEq, Eq, Error)]
pub enum Stop {
    /// Memory ran out. Nothing is said of the text.
    #[error("no memory")]
    NoMemory,
    /// The text goes on as no field does: so many of its bytes are left at the first such byte, 0 where the text ends
    /// inside a field. Counted from the end, the place is the same for a text and for what is left of it behind a
    /// field, so that `?` passes it on unchanged.
    #[error("no field goes on where {0} bytes are left")]
    Left(usize),
}

impl From<memory::NoMemory> for Stop {
    ghost from_gives = { λ _ stop. stop ≡ NoMemory };

    fn from(_fault: memory::NoMemory) -> Stop {
        Stop::NoMemory
    }
}

impl From<AllocError> for Stop {
    ghost from_gives = { λ _ stop. stop ≡ NoMemory };

    fn from(_fault: AllocError) -> Stop {
        Stop::NoMemory
    }
}

impl<T: Drop> From<AllocFailed<T>> for Stop {
    ghost from_gives = { λ _ stop. stop ≡ NoMemory };

    fn from(_fault: AllocFailed<T>) -> Stop {
        Stop::NoMemory
    }
}
