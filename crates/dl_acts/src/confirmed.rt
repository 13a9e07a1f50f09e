use std::marker::Model;

/// How many entries of its ledger a client's writer has confirmed. Contracts see it as the rule's.
#[derive(Clone, Copy, Debug)]
pub struct Confirmed {
    /// The number of the ledger.
    pub ledger: u64,
    /// How many of its first entries are confirmed.
    pub count: u64,
}

impl Model for Confirmed {
    ghost use Rattle.dl_rules_client.specs.Acts.{Confirmation};

    ghost Value = { Confirmation };

    ghost view = { λ c. record { ledger = c.ledger; count = c.count } };

    ghost inverse = { λ c. record { ledger = c.ledger; count = c.count } };
}
