ghost use Rattle.std.specs.Prelude.{◌≡◌, ◌≤◌};

use std::marker::Model;

/// The number of a session of the metadata node, from 1 (ZooKeeper documentation, "Sessions"). Contracts see it as that
/// number.
#[derive(Clone, Copy, Debug, PartialEq, Eq, PartialOrd, Ord, Hash)]
pub struct SessionId {
    number: u64,
}

impl Model for SessionId {
    ghost use Rattle.std.specs.Prelude.{ℕ, ◌≤◌};

    ghost Value = { ℕ };

    ghost view = { λ a. a.number };

    ghost invariant = { λ a. 1 ≤ a.number };

    ghost inverse = { λ n. record { number = n } };
}

impl SessionId {
    /// The session of this number.
    pub fn new(number: u64) -> SessionId
        requires { 1 ≤ number }
        ensures { result ≡ number }
    {
        SessionId { number }
    }

    /// The session's number.
    pub fn number(self) -> u64
        ensures value { result ≡ self }
        ensures least { 1 ≤ result }
    {
        self.number
    }
}
