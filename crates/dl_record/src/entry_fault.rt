ghost use Rattle.std.specs.Prelude.{◌≡◌, Some};
ghost use Rattle.dl_record.specs.declared.entry_fault.EntryFault.TheVariants.{NoMemory};
ghost use Rattle.dl_record.specs.Flaws.{flaw_of};

use crate::entry_flaw::EntryFlaw;
use std::alloc::{AllocError, AllocFailed};
use thiserror::Error;

/// Why an entry was not read: want of memory, or the first flaw in the order of the bytes, with the place, from 0, of the
/// first byte of its field.
#[derive(Clone, Copy, Debug, PartialEq, Eq, Error)]
pub enum EntryFault {
    /// Memory ran out.
    #[error("no memory")]
    NoMemory,
    /// A version, flags or a transaction id that no entry has, or a byte of a record set that is not 0.
    #[error("bad flags at {at}")]
    BadFlags { at: usize },
    /// The entry or a record set is compressed.
    #[error("compressed at {at}")]
    Compressed { at: usize },
    /// The field is cut short, or fewer bytes follow than it says.
    #[error("cut short at {at}")]
    Short { at: usize },
    /// The entry is longer than an entry may be, or the length of a record is above that of a payload.
    #[error("too long at {at}")]
    TooLong { at: usize },
    /// A count of records or members, a position, or the length of a control record that does not fit.
    #[error("bad count at {at}")]
    BadCount { at: usize },
    /// The transaction id is below that of the record before.
    #[error("transaction id falls at {at}")]
    TxidBack { at: usize },
    /// Bytes are left over from this place on.
    #[error("bytes left over at {at}")]
    Long { at: usize },
}

impl From<AllocError> for EntryFault {
    ghost from_gives = { λ _ fault. fault ≡ NoMemory };

    fn from(_error: AllocError) -> EntryFault {
        EntryFault::NoMemory
    }
}

impl<T: Drop> From<AllocFailed<T>> for EntryFault {
    ghost from_gives = { λ _ fault. fault ≡ NoMemory };

    fn from(_error: AllocFailed<T>) -> EntryFault {
        EntryFault::NoMemory
    }
}

impl From<dl_types::memory::NoMemory> for EntryFault {
    ghost from_gives = { λ _ fault. fault ≡ NoMemory };

    fn from(_error: dl_types::memory::NoMemory) -> EntryFault {
        EntryFault::NoMemory
    }
}

impl From<EntryFlaw> for EntryFault {
    ghost from_gives = { λ flaw fault. flaw_of fault ≡ Some flaw };

    fn from(flaw: EntryFlaw) -> EntryFault {
        match flaw {
            EntryFlaw::BadFlags { at } => EntryFault::BadFlags { at },
            EntryFlaw::Compressed { at } => EntryFault::Compressed { at },
            EntryFlaw::Short { at } => EntryFault::Short { at },
            EntryFlaw::TooLong { at } => EntryFault::TooLong { at },
            EntryFlaw::BadCount { at } => EntryFault::BadCount { at },
            EntryFlaw::TxidBack { at } => EntryFault::TxidBack { at },
            EntryFlaw::Long { at } => EntryFault::Long { at },
        }
    }
}
