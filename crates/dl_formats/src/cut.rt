use dl_types::dlsn::Dlsn;

/// What a stream's node `cut` holds: the place before which the stream is cut off (DistributedLog documentation,
/// "Truncation").
#[derive(Clone, Copy, Debug, PartialEq, Eq)]
pub struct Cut {
    /// The first place that is kept; its segment is not 0.
    pub point: Dlsn,
}
