/// The configuration of a deployment, which the node `/conf` holds: each number is 1 to 16, and at most the one before it.
#[derive(Clone, Copy, Debug, PartialEq, Eq)]
pub struct Conf {
    /// How many bookies there are.
    pub b: u8,
    /// The ensemble size of new ledgers (BookKeeper documentation, "Ledgers").
    pub e: u8,
    /// Their write quorum.
    pub qw: u8,
    /// Their ack quorum.
    pub qa: u8,
}
