use dl_types::dlsn::Dlsn;

/// What the recovery of a stream comes to.
#[derive(Clone, Copy, Debug, PartialEq, Eq)]
pub enum Found {
    /// No segment was in progress.
    Whole,
    /// The last segment was completed: all its rows stand below this place.
    Completes(Dlsn),
}
