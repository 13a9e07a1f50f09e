/// Which request the order waits for.
#[derive(Debug, Drop)]
pub(crate) enum SeekStage {
    /// That which reads the stream's point.
    Seeking,
    /// None: it is done or refused.
    Over,
}
