ghost use Rattle.std.specs.Prelude.{◌≡◌};
ghost use Rattle.dl_tree.specs.declared.fault.OneFault.TheVariants as one;
ghost use Rattle.dl_tree.specs.declared.fault.RunFault.TheVariants as run;

use dl_types::memory;
use dl_types::why::Why;
use std::alloc::AllocFailed;

/// Why an operation was not done.
#[derive(Clone, Copy, Debug, PartialEq, Eq)]
pub(crate) enum OneFault {
    /// Memory ran out.
    NoMemory,
    /// The operation fails.
    Failed(Why),
}

impl From<memory::NoMemory> for OneFault {
    ghost from_gives = { λ _ fault. fault ≡ one.NoMemory };

    fn from(_error: memory::NoMemory) -> OneFault {
        OneFault::NoMemory
    }
}

/// Why operations in order were not done.
#[derive(Clone, Copy, Debug, PartialEq, Eq)]
pub(crate) enum RunFault {
    /// Memory ran out.
    NoMemory,
    /// The operation at this place fails.
    Failed { place: u16, why: Why },
}

impl<T: Drop> From<AllocFailed<T>> for RunFault {
    ghost from_gives = { λ _ fault. fault ≡ run.NoMemory };

    fn from(_error: AllocFailed<T>) -> RunFault {
        RunFault::NoMemory
    }
}
