/// What becomes of a request that comes with a session and a number.
#[derive(Clone, Copy, Debug, PartialEq, Eq)]
pub enum Admit {
    /// The session is not live.
    Expired,
    /// The number is not above the last one run in the session.
    Old,
    /// The request is run.
    Run,
}
