ghost use Rattle.std.specs.Prelude.{◌≡◌};
ghost use Rattle.dl_bookie.specs.declared.look_fault.LookFault.TheVariants.{NoMemory};

use dl_types::memory;
use std::alloc::AllocError;
use thiserror::Error;

/// Why a look at what is durable gave no answer.
#[derive(Clone, Copy, Debug, PartialEq, Eq, Error)]
pub enum LookFault {
    /// A call on the device failed.
    #[error("device failed")]
    Device,
    /// An earlier call on the device failed. No call was made.
    #[error("storage node failed before")]
    Failed,
    /// What was read back for the entry whose bytes begin at this offset of the file are too few bytes, or no entry.
    #[error("entry damaged at {0}")]
    Damaged(u64),
    /// Memory ran out.
    #[error("no memory")]
    NoMemory,
}

impl LookFault {
    ghost use Rattle.dl_bookie.specs.Looking.{is_device};

    /// Whether a call on the device failed.
    pub fn is_device(self) -> bool
        ensures { result ≡ is_device self }
    {
        match self {
            LookFault::Device => true,
            _ => false,
        }
    }
}

impl From<AllocError> for LookFault {
    ghost from_gives = { λ _ e. e ≡ NoMemory };

    fn from(_error: AllocError) -> LookFault {
        LookFault::NoMemory
    }
}

impl From<memory::NoMemory> for LookFault {
    ghost from_gives = { λ _ e. e ≡ NoMemory };

    fn from(_error: memory::NoMemory) -> LookFault {
        LookFault::NoMemory
    }
}
