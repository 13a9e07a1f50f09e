ghost use Rattle.std.specs.Prelude.{◌≡◌, ◌≤◌};

use std::marker::Model;

/// The greatest number of a client: there are at most 64 clients.
pub const MAX_CLIENT: u16 = 63;

/// The number of a client process, 0 to `MAX_CLIENT`. Contracts see it as that number.
#[derive(Clone, Copy, Debug, PartialEq, Eq, PartialOrd, Ord, Hash)]
pub struct ClientId {
    number: u16,
}

impl Model for ClientId {
    ghost use Rattle.std.specs.Prelude.{ℕ, ◌≤◌};
    ghost use Rattle.dl_types.specs.declared.client.TheConstants.{MAX_CLIENT};

    ghost Value = { ℕ };

    ghost view = { λ c. c.number };

    ghost invariant = { λ c. c.number ≤ MAX_CLIENT };

    ghost inverse = { λ n. record { number = n } };
}

impl ClientId {
    /// The client of this number.
    pub fn new(number: u16) -> ClientId
        requires { number ≤ MAX_CLIENT }
        ensures { result ≡ number }
    {
        ClientId { number }
    }

    /// The client's number.
    pub fn number(self) -> u16
        ensures value { result ≡ self }
        ensures bound { result ≤ MAX_CLIENT }
    {
        self.number
    }
}
