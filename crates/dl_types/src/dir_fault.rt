ghost use Rattle.std.specs.Prelude.{◌≡◌};

use crate::limit::LimitName;
use crate::refusal::Refusal;
use crate::status::Status;

/// Why a command on the files of a folder fails.
#[derive(Clone, Debug, PartialEq, Eq, Drop)]
pub enum DirFault {
    /// A read from the source failed.
    ReadFault,
    /// A write to the sink failed.
    WriteFault,
    /// A call on the file of this number failed.
    DeviceFault { file: u8 },
    /// The metadata file is empty, or no batch of it is in force.
    NotInitialised,
    /// The file of this number breaks its format at this byte, from 0.
    Damaged { file: u8, at: u64 },
    /// No stream has this name.
    NoStream,
    /// A stream of this name is there.
    StreamExists,
    /// The order was refused.
    Refused { refusal: Refusal },
    /// An order waits for so many bookies of a write set, and so many answered.
    Unavailable { need: u8, have: u8 },
    /// What the limit counts is past this number.
    Limit { name: LimitName, number: u64 },
    /// Memory ran out.
    NoMemory,
    /// A batch of the metadata file is in force already.
    AlreadyInitialised,
    /// So many bookies denied an entry that the metadata calls readable that no other one can make up for them.
    Lacking { ledger: u64, entry: u64 },
}

impl DirFault {
    ghost use Rattle.dl_types.specs.Statuses.{fault_status};

    /// The status with which the program ends after this fault.
    pub fn into_status(self) -> Status
        ensures { result ≡ fault_status self }
    {
        match self {
            DirFault::ReadFault => Status::ReadFault,
            DirFault::WriteFault => Status::WriteFault,
            DirFault::DeviceFault { file } => Status::DeviceFault { file },
            DirFault::NotInitialised => Status::NotInitialised,
            DirFault::Damaged { file, at } => Status::Damaged { file, at },
            DirFault::NoStream => Status::NoStream,
            DirFault::StreamExists => Status::StreamExists,
            DirFault::Refused { refusal } => Status::Refused { refusal },
            DirFault::Unavailable { need, have } => Status::Unavailable { need, have },
            DirFault::Limit { name, number } => Status::Limit { name, number },
            DirFault::NoMemory => Status::NoMemory,
            DirFault::AlreadyInitialised => Status::AlreadyInitialised,
            DirFault::Lacking { ledger, entry } => Status::Lacking { ledger, entry },
        }
    }
}
