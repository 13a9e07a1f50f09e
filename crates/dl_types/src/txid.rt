ghost use Rattle.std.specs.Prelude.{◌≡◌, ◌≤◌};

use std::marker::Model;

/// The greatest transaction id, 2^63 - 1: ids fit a signed number, as in DistributedLog.
pub const MAX_TXID: u64 = 9_223_372_036_854_775_807;

/// A transaction id: the application's own number of a record, which never falls along a stream (DistributedLog
/// documentation, "Log records"). It is at most `MAX_TXID`, and contracts see it as a number.
#[derive(Clone, Copy, Debug, PartialEq, Eq, PartialOrd, Ord, Hash)]
pub struct TxId {
    number: u64,
}

impl Model for TxId {
    ghost use Rattle.std.specs.Prelude.{ℕ, ◌≤◌};
    ghost use Rattle.dl_types.specs.declared.txid.TheConstants.{MAX_TXID};

    ghost Value = { ℕ };

    ghost view = { λ t. t.number };

    ghost invariant = { λ t. t.number ≤ MAX_TXID };

    ghost inverse = { λ n. record { number = n } };
}

impl TxId {
    /// The id of this number.
    pub fn new(number: u64) -> TxId
        requires { number ≤ MAX_TXID }
        ensures { result ≡ number }
    {
        TxId { number }
    }

    /// The id's number.
    pub fn number(self) -> u64
        ensures value { result ≡ self }
        ensures bound { result ≤ MAX_TXID }
    {
        self.number
    }
}
