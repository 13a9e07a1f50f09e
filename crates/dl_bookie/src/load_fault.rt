ghost use Rattle.std.specs.Prelude.{◌≡◌};
ghost use Rattle.dl_bookie.specs.declared.load_fault.LoadFault.TheVariants.{NoMemory};
ghost use Rattle.dl_bookie.specs.Faults.{fault_of_journal, fault_of_items};

use dl_journal::load_fault as journal;
use dl_msg::resource::Resource;
use dl_restore::fault::RestoreFault;
use dl_types::memory;
use std::alloc::AllocError;
use thiserror::Error;

/// Why a storage node was not made or loaded.
#[derive(Clone, Copy, Debug, PartialEq, Eq, Error)]
pub enum LoadFault {
    /// The bytes of the journal break its layout, or an item in it breaks that of items. The offset, from 0, of the first byte of
    /// the part that breaks it.
    #[error("journal damaged at {0}")]
    Damaged(u64),
    /// The file is longer than a journal may be. Its size in bytes.
    #[error("journal of {0} bytes is too large")]
    TooLarge(u64),
    /// The items have more entries or more ledgers than the tables take.
    #[error("too many entries or ledgers")]
    Crowded(Resource),
    /// A call on the device failed.
    #[error("device failed")]
    Device,
    /// Memory ran out.
    #[error("no memory")]
    NoMemory,
}

impl LoadFault {
    /// The fault of a node whose journal was not loaded.
    pub fn of_journal(fault: journal::LoadFault) -> LoadFault
        ensures { result ≡ fault_of_journal fault }
    {
        match fault {
            journal::LoadFault::Damaged(at) => LoadFault::Damaged(at),
            journal::LoadFault::TooLarge(size) => LoadFault::TooLarge(size),
            journal::LoadFault::Device => LoadFault::Device,
            journal::LoadFault::NoMemory => LoadFault::NoMemory,
        }
    }

    /// The fault of a node whose journal gives no tables.
    pub fn of_items(fault: RestoreFault) -> LoadFault
        ensures { result ≡ fault_of_items fault }
    {
        match fault {
            RestoreFault::Damaged(at) => LoadFault::Damaged(at),
            RestoreFault::Crowded(what) => LoadFault::Crowded(what),
        }
    }
}

impl From<AllocError> for LoadFault {
    ghost from_gives = { λ _ e. e ≡ NoMemory };

    fn from(_error: AllocError) -> LoadFault {
        LoadFault::NoMemory
    }
}

impl From<memory::NoMemory> for LoadFault {
    ghost from_gives = { λ _ e. e ≡ NoMemory };

    fn from(_error: memory::NoMemory) -> LoadFault {
        LoadFault::NoMemory
    }
}
