/// Which request the task waits for, and what it keeps for the ones behind it.
#[derive(Debug, Drop)]
pub enum Stage {
    /// That which makes a ledger.
    Making,
    /// That which names the new ledger, this one, in the stream's node `alloc`.
    Taking { ledger: u64 },
    /// None: it is done or refused.
    Over,
}
