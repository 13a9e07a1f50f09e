ghost use Rattle.std.specs.Prelude.{◌≡◌};
ghost use Rattle.dl_record.specs.declared.entry_flaw.EntryFlaw.TheVariants.{Short};

use dl_codec::short;
use thiserror::Error;

/// Why bytes are no entry: the first flaw in the order of the bytes, with the place, from 0, of the first byte of its
/// field.
#[derive(Clone, Copy, Debug, PartialEq, Eq, Error)]
pub enum EntryFlaw {
    /// A version, flags or a transaction id that no entry has, or a byte of a record set that is not 0.
    #[error("bad flags at {at}")]
    BadFlags { at: usize },
    /// The entry or a record set is compressed.
    #[error("compressed at {at}")]
    Compressed { at: usize },
    /// The field is cut short, or fewer bytes follow than it says.
    #[error("cut short at {at}")]
    Short { at: usize },
    /// The entry is longer than an entry may be, or the length of a record is above that of a payload.
    #[error("too long at {at}")]
    TooLong { at: usize },
    /// A count of records or members, a position, or the length of a control record that does not fit.
    #[error("bad count at {at}")]
    BadCount { at: usize },
    /// The transaction id is below that of the record before.
    #[error("transaction id falls at {at}")]
    TxidBack { at: usize },
    /// Bytes are left over from this place on.
    #[error("bytes left over at {at}")]
    Long { at: usize },
}

impl From<short::Short> for EntryFlaw {
    ghost from_gives = { λ short flaw. flaw ≡ Short short.at };

    fn from(short: short::Short) -> EntryFlaw {
        EntryFlaw::Short { at: short.at }
    }
}
