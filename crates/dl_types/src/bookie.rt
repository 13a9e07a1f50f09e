ghost use Rattle.std.specs.Prelude.{◌≡◌, ◌≤◌};

use std::marker::Model;

/// The greatest number of a bookie: there are at most 16 bookies.
pub const MAX_BOOKIE: u8 = 15;

/// The number of a bookie, 0 to `MAX_BOOKIE`. Contracts see it as that number.
#[derive(Clone, Copy, Debug, PartialEq, Eq, PartialOrd, Ord, Hash)]
pub struct BookieId {
    number: u8,
}

impl Model for BookieId {
    ghost use Rattle.std.specs.Prelude.{ℕ, ◌≤◌};
    ghost use Rattle.dl_types.specs.declared.bookie.TheConstants.{MAX_BOOKIE};

    ghost Value = { ℕ };

    ghost view = { λ a. a.number };

    ghost invariant = { λ a. a.number ≤ MAX_BOOKIE };

    ghost inverse = { λ n. record { number = n } };
}

impl BookieId {
    /// The bookie of this number.
    pub fn new(number: u8) -> BookieId
        requires { number ≤ MAX_BOOKIE }
        ensures { result ≡ number }
    {
        BookieId { number }
    }

    /// The bookie's number.
    pub fn number(self) -> u8
        ensures value { result ≡ self }
        ensures most { result ≤ MAX_BOOKIE }
    {
        self.number
    }
}
