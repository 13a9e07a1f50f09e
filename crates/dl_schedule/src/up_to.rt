ghost use Rattle.std.specs.Prelude.{◌≡◌, ◌≤◌};

use std::marker::Model;

/// The most bookies that a world has.
pub const MAX_BOOKIES: u64 = 16;

/// The most rows of a read.
pub const MAX_ROWS: u64 = 1000;

/// How many device calls a commit makes: the frame is written, synced, its gate is opened, synced.
pub const COMMIT_CALLS: u64 = 4;

/// The greatest number of a message on its link.
pub const MAX_MESSAGE: u64 = 4_294_967_295;

/// A number of bookies: how many a world has, or the size of an ensemble, a write quorum or an ack quorum (BookKeeper
/// documentation, "Quorums").
pub type BookieCount = UpTo<MAX_BOOKIES>;

/// How many rows a read asks for.
pub type RowCount = UpTo<MAX_ROWS>;

/// One of the device calls of a commit.
pub type DeviceStep = UpTo<COMMIT_CALLS>;

/// The number of a message on its link, from 1 in the order of sending.
pub type MessageNumber = UpTo<MAX_MESSAGE>;

/// A number from 1 to `MOST`. Contracts see it as that number.
#[derive(Clone, Copy, Debug, PartialEq, Eq, PartialOrd, Ord)]
pub struct UpTo<const MOST: u64> {
    number: u64,
}

impl<const MOST: u64> Model for UpTo<MOST> {
    ghost use Rattle.std.specs.Prelude.{ℕ, ◌≤◌};

    ghost Value = { ℕ };

    ghost view = { λ x. x.number };

    ghost invariant = { λ x. (1 ≤ x.number) × (x.number ≤ MOST) };

    ghost inverse = { λ n. record { number = n } };
}

impl<const MOST: u64> UpTo<MOST> {
    /// This number.
    pub fn new(number: u64) -> UpTo<MOST>
        requires some { 1 ≤ number }
        requires most { number ≤ MOST }
        ensures { result ≡ number }
    {
        UpTo { number }
    }

    /// The number.
    pub fn number(&self) -> u64
        ensures value { result ≡ self.now }
        ensures some { 1 ≤ result }
        ensures most { result ≤ MOST }
    {
        self.number
    }
}
