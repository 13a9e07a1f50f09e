ghost use Rattle.std.specs.Prelude.{◌≡◌};

use dl_quorum::place_set::PlaceSet;
use dl_types::entry_bytes::EntryBytes;
use std::alloc::AllocError;

/// What a reader waits for, or what it has got.
#[derive(Debug, Drop)]
pub(crate) enum Stage {
    /// It was asked for nothing.
    Idle,
    /// It counts: the bookies of these places have answered, and this is the greatest count.
    Counting { answered: PlaceSet, greatest: u64 },
    /// A cover has answered: so many entries can be read.
    Counted { count: u64 },
    /// It waits for this entry.
    Fetching { entry: u64 },
    /// It has the bytes of the entry.
    Fetched { bytes: EntryBytes },
}

impl Clone for Stage {
    ghost is_clone = { λ s copy. copy ≡ s };

    fn clone(&self) -> Result<Self, AllocError> {
        match self {
            Stage::Idle => Ok(Stage::Idle),
            Stage::Counting { answered, greatest } => Ok(Stage::Counting {
                answered: *answered,
                greatest: *greatest,
            }),
            Stage::Counted { count } => Ok(Stage::Counted { count: *count }),
            Stage::Fetching { entry } => Ok(Stage::Fetching { entry: *entry }),
            Stage::Fetched { bytes } => {
                let bytes = bytes.clone()?;
                Ok(Stage::Fetched { bytes })
            }
        }
    }
}
