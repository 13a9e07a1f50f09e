ghost use Rattle.std.specs.Prelude.{◌≡◌};

use crate::limit::LimitName;
use crate::refusal::Refusal;

/// How the program ends.
#[derive(Clone, Debug, PartialEq, Eq, Drop)]
pub enum Status {
    /// All was done.
    Ok,
    /// No command goes on at the word of this place, from 1; one past the last where words are missing.
    Usage { place: u64 },
    /// No line of a schedule goes on at this column, from 1, of this line, from 1.
    BadSchedule { line: u64, column: u64 },
    /// A read from the source failed.
    ReadFault,
    /// A write to the sink failed.
    WriteFault,
    /// A call on the file of this number failed.
    DeviceFault { file: u8 },
    /// The metadata file is empty, or no batch of it is in force.
    NotInitialised,
    /// The file of this number breaks its format at this byte, from 0.
    Damaged { file: u8, at: u64 },
    /// No stream has this name.
    NoStream,
    /// A stream of this name is there.
    StreamExists,
    /// The order was refused.
    Refused { refusal: Refusal },
    /// An order waits for so many bookies of a write set, and so many answered.
    Unavailable { need: u8, have: u8 },
    /// What the limit counts is past this number.
    Limit { name: LimitName, number: u64 },
    /// Memory ran out.
    NoMemory,
    /// A batch of the metadata file is in force already.
    AlreadyInitialised,
    /// So many bookies denied an entry that the metadata calls readable that no other one can make up for them.
    Lacking { ledger: u64, entry: u64 },
}

impl Status {
    ghost use Rattle.dl_types.specs.Statuses.{status_number};

    /// The exit status of the process.
    pub fn number(&self) -> u8
        ensures { result ≡ status_number self.now }
    {
        match self {
            Status::Ok => 0,
            Status::Usage { .. } => 1,
            Status::BadSchedule { .. } => 2,
            Status::ReadFault => 3,
            Status::WriteFault => 4,
            Status::DeviceFault { .. } => 5,
            Status::NotInitialised => 6,
            Status::Damaged { .. } => 7,
            Status::NoStream => 8,
            Status::StreamExists => 9,
            Status::Refused { .. } => 10,
            Status::Unavailable { .. } => 11,
            Status::Limit { .. } => 12,
            Status::NoMemory => 13,
            Status::AlreadyInitialised => 14,
            Status::Lacking { .. } => 15,
        }
    }
}
