/// Which request the task waits for.
#[derive(Debug, Drop)]
pub(crate) enum MakeStage {
    /// That which makes all nodes of the stream.
    Making,
    /// That which makes the lock and the segments of a stream that was removed before.
    MakingAgain,
    /// None: it is done or refused.
    Over,
}
