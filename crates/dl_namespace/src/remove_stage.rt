/// Whether the task waits for its request.
#[derive(Debug, Drop)]
pub(crate) enum RemoveStage {
    /// It waits for the removal.
    Removing,
    /// It is done or refused.
    Over,
}
