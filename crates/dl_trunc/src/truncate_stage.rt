/// Which request the task waits for, and what it keeps for the ones behind it.
#[derive(Debug, Drop)]
pub(crate) enum TruncateStage {
    /// That which lists the segments and reads the point.
    Looking,
    /// That which sets the point, where its node has this version.
    Setting { version: u64 },
    /// None: it is done or refused.
    Over,
}
