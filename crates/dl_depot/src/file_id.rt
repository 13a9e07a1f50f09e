ghost use Rattle.std.specs.Prelude.{◌≡◌, ◌<◌};
ghost use Rattle.dl_depot.specs.Files.{file_count};

use std::marker::Model;

/// The number of a file of a depot, at most 33: 0 is the metadata file, 1 to 16 are the journals of bookies 0 to 15, 17 is
/// the metadata snapshot, and 18 to 33 are the entry logs of bookies 0 to 15. Contracts see it as a number.
#[derive(Clone, Copy, Debug, PartialEq, Eq, PartialOrd, Ord, Hash)]
pub struct FileId {
    number: u8,
}

impl Model for FileId {
    ghost use Rattle.std.specs.Prelude.{ℕ, ◌<◌};
    ghost use Rattle.dl_depot.specs.Files.{file_count};

    ghost Value = { ℕ };

    ghost view = { λ f. f.number };

    ghost invariant = { λ f. f.number < file_count };

    ghost inverse = { λ n. record { number = n } };
}

impl FileId {
    /// How many files a depot has: two for the metadata, and two for each of 16 bookies.
    pub const COUNT: usize = 34;

    /// The file of this number.
    pub fn new(number: u8) -> FileId
        requires { number < file_count }
        ensures { result ≡ number }
    {
        FileId { number }
    }

    /// The file's number, as an index.
    pub fn index(self) -> usize
        ensures value { result ≡ self }
        ensures bound { result < file_count }
    {
        self.number as usize
    }
}
