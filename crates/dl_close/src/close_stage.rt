/// Which request the order waits for.
#[derive(Debug, Drop)]
pub(crate) enum CloseStage {
    /// That which closes the ledger.
    Closing,
    /// That which completes the segment.
    Completing,
    /// That which deletes the owner's member of the lock.
    Leaving,
    /// None: it is done or refused.
    Over,
}
